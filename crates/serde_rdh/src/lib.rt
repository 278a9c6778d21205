// The header from and to its 64 bytes, and equality by bytes: the Rust's traits `SerdeRdh` and `ByteSlice`. A module for each word.
#![tactic(auto)]

ghost use Rattle.std.specs.Prelude.{◌≡◌, ◌++◌, ◌+◌, ◌≤◌, take, drop};
ghost use Rattle.basis.specs.Bytes.{bytes_of};
ghost use Rattle.serde_rdh.specs.Layout.{decode, decoded, encode, encoded_into, Equal};
ghost use Rattle.serde_rdh.specs.Refusals.{decode_answer, encode_answer};
ghost use Rattle.serde_rdh.specs.Words.{Words};

pub use rdh::rdh_cru::TooFewBytes;
use rdh::rdh_cru::{CruidDw, DataformatReserved, RDH_CRU_SIZE_BYTES, RdhCru};
use serde_rdh_numbers::Half;
use serde_rdh_words::{same_words, write_words};

mod rdh0;
mod rdh1;
mod rdh2;
mod rdh3;

// The header in the first 64 bytes of `buf`; what follows them is not read.
pub fn from_buf(buf: &[u8]) -> Result<RdhCru, TooFewBytes>
    ensures { decode_answer result ≡ decode buf.now }
{
    let Some(header) = buf.first_chunk() else {
        return Err(TooFewBytes);
    };
    Ok(header_of(header))
}

fn header_of(buf: &[u8; RDH_CRU_SIZE_BYTES]) -> RdhCru
    ensures { result ≡ decoded buf.now }
{
    RdhCru {
        rdh0: rdh0::from_buf(buf),
        offset_new_packet: u16::from_le_bytes(bytes_at(buf, 8)),
        memory_size: u16::from_le_bytes(bytes_at(buf, 10)),
        link_id: buf[12],
        packet_counter: buf[13],
        cruid_dw: CruidDw(u16::from_le_bytes(bytes_at(buf, 14))),
        rdh1: rdh1::from_buf(buf),
        dataformat_reserved0: DataformatReserved(u64::from_le_bytes(bytes_at(buf, 24))),
        rdh2: rdh2::from_buf(buf),
        reserved1: u64::from_le_bytes(bytes_at(buf, 40)),
        rdh3: rdh3::from_buf(buf),
        reserved2: u64::from_le_bytes(bytes_at(buf, 56)),
    }
}

// The bytes of a field, from byte `i` of the header on.
fn bytes_at<const N: usize>(buf: &[u8; RDH_CRU_SIZE_BYTES], i: usize) -> [u8; N]
    requires { i + N ≤ 64 }
    ensures { result ≡ take N (drop i buf.now) }
{
    let mut bytes = [0; N];
    bytes.copy_from_slice(&buf[i..i + N]);
    bytes
}

// Writes the header to the first 64 bytes of `out`, or nothing where there are fewer.
pub fn to_byte_slice(rdh: RdhCru, out: &mut [u8]) -> Result<(), TooFewBytes>
    ensures answer { encode_answer result ≡ encode out.old }
    ensures left { out.new ≡ encoded_into rdh out.old }
{
    write_words(out, words(rdh))
}

// Equality by bytes, eight at a time. The fields fill them, so it is the equality of the fields.
pub fn eq(rdh: RdhCru, other: RdhCru) -> bool
    ensures { Equal rdh other result }
{
    same_words(words(rdh), words(other))
}

// The header as eight words of eight bytes, each as one number.
fn words(rdh: RdhCru) -> [u64; 8]
    ensures { Words rdh result }
{
    [
        rdh0::word(rdh.rdh0),
        packet_word(rdh),
        rdh1::word(rdh.rdh1),
        rdh.dataformat_reserved0.0,
        rdh2::word(rdh.rdh2),
        rdh.reserved1,
        rdh3::word(rdh.rdh3),
        rdh.reserved2,
    ]
}

// The second word, which has no struct of its own, as one number, its first byte lowest.
fn packet_word(rdh: RdhCru) -> u64
    ensures { bytes_of 8 result
        ≡ bytes_of 2 rdh.offset_new_packet ++ bytes_of 2 rdh.memory_size
        ++ (bytes_of 1 rdh.link_id ++ bytes_of 1 rdh.packet_counter ++ bytes_of 2 rdh.cruid_dw.0) }
{
    let first = rdh.offset_new_packet.join(rdh.memory_size);
    let second = rdh.link_id.join(rdh.packet_counter).join(rdh.cruid_dw.0);
    first.join(second)
}
