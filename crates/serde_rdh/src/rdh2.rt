// The fifth word, RDH2, from and to bytes 32 to 39.
ghost use Rattle.std.specs.Prelude.{◌≡◌, ◌++◌};
ghost use Rattle.basis.specs.Bytes.{bytes_of};
ghost use Rattle.serde_rdh.specs.Layout.{decoded};

use crate::bytes_at;
use rdh::rdh_cru::RDH_CRU_SIZE_BYTES;
use rdh::rdh2::Rdh2;
use serde_rdh_numbers::Half;

// The fifth word of the header in `buf`.
pub(crate) fn from_buf(buf: &[u8; RDH_CRU_SIZE_BYTES]) -> Rdh2
    ensures { result ≡ (decoded buf.now).rdh2 }
{
    Rdh2 {
        trigger_type: u32::from_le_bytes(bytes_at(buf, 32)),
        pages_counter: u16::from_le_bytes(bytes_at(buf, 36)),
        stop_bit: buf[38],
        reserved0: buf[39],
    }
}

// The word as one number, its first byte lowest.
pub(crate) fn word(rdh2: Rdh2) -> u64
    ensures { bytes_of 8 result
        ≡ bytes_of 4 rdh2.trigger_type
        ++ (bytes_of 2 rdh2.pages_counter ++ (bytes_of 1 rdh2.stop_bit ++ bytes_of 1 rdh2.reserved0)) }
{
    let second = rdh2.pages_counter.join(rdh2.stop_bit.join(rdh2.reserved0));
    rdh2.trigger_type.join(second)
}
