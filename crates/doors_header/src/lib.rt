// What C and Python call about headers, over structs by value that C has too.
#![tactic(auto)]

ghost use Rattle.std.specs.Prelude.{◌≡◌};
ghost use Rattle.rdh_row.specs.Row.{row_text};
ghost use Rattle.serde_rdh.specs.Layout.{decode, encode, encoded_into, Equal};
ghost use Rattle.text.specs.Written.{overwritten, written};
ghost use Rattle.doors_header_structs.specs.Plain.{header_of, plain_written, refusal_of};
ghost use Rattle.doors_header_structs.specs.Replies.{parts_of, plain_decoded};

use doors_header_structs::plain::{PlainHeader, PlainText};
use doors_header_structs::replies::{PlainDecoded, PlainHeaderParts, encode_refusal};
use rdh::rdh_cru::RdhCru;

// The header in the first 64 bytes.
pub fn kesarimbu_decode(bytes: &[u8]) -> PlainDecoded
    ensures { result ≡ plain_decoded (decode bytes.now) }
{
    PlainDecoded::from(serde_rdh::from_buf(bytes))
}

// Writes a header to the first 64 bytes.
pub fn kesarimbu_encode(header: PlainHeader, out: &mut [u8]) -> u32
    ensures answer { result ≡ refusal_of (encode out.old) }
    ensures left { out.new ≡ encoded_into (header_of header) out.old }
{
    encode_refusal(serde_rdh::to_byte_slice(RdhCru::from(header), out))
}

// Whether two headers have the same bytes.
pub fn kesarimbu_equal(header: PlainHeader, other: PlainHeader) -> bool
    ensures { Equal (header_of header) (header_of other) result }
{
    serde_rdh::eq(RdhCru::from(header), RdhCru::from(other))
}

// The fields of a header that share a number with others, and whether it has a physics trigger.
pub fn kesarimbu_parts(header: PlainHeader) -> PlainHeaderParts
    ensures { result ≡ parts_of (header_of header) }
{
    let rdh = RdhCru::from(header);
    PlainHeaderParts {
        bc_reserved: rdh.rdh1.reserved0(),
        bc: rdh.rdh1.bc(),
        cru_id: rdh.cru_id(),
        dw: rdh.dw(),
        data_format: rdh.data_format(),
        is_pht_trigger: rdh.rdh2.is_pht_trigger(),
    }
}

// Writes the row of a header.
pub fn kesarimbu_row(header: PlainHeader, out: &mut [u8]) -> PlainText
    ensures answer { result ≡ plain_written (written (row_text (header_of header)) out.old) }
    ensures left { out.new ≡ overwritten (row_text (header_of header)) out.old }
{
    PlainText::from(rdh_row::row(RdhCru::from(header), out))
}
