// Headers and rows.

ghost use Rattle.std.specs.Prelude.{◌≡◌};
ghost use Rattle.rdh_row.specs.Row.{row_text};
ghost use Rattle.serde_rdh.specs.Layout.{decode, encode, encoded_into, Equal};
ghost use Rattle.text.specs.Written.{overwritten, written};
ghost use Rattle.doors_header_structs.specs.Plain.{header_of, plain_written, refusal_of};
ghost use Rattle.doors_header_structs.specs.Replies.{parts_of, plain_decoded};

use doors_header_structs::plain::{PlainHeader, PlainText};
use doors_header_structs::replies::{PlainDecoded, PlainHeaderParts};

// The header in the first 64 bytes.
#[unsafe(no_mangle)]
pub extern "C" fn kesarimbu_decode(bytes: &[u8]) -> PlainDecoded
    ensures { result ≡ plain_decoded (decode bytes.now) }
{
    doors_header::kesarimbu_decode(bytes)
}

// Writes a header to the first 64 bytes.
#[unsafe(no_mangle)]
pub extern "C" fn kesarimbu_encode(header: PlainHeader, out: &mut [u8]) -> u32
    ensures answer { result ≡ refusal_of (encode out.old) }
    ensures left { out.new ≡ encoded_into (header_of header) out.old }
{
    doors_header::kesarimbu_encode(header, out)
}

// Whether two headers have the same bytes.
#[unsafe(no_mangle)]
pub extern "C" fn kesarimbu_equal(header: PlainHeader, other: PlainHeader) -> bool
    ensures { Equal (header_of header) (header_of other) result }
{
    doors_header::kesarimbu_equal(header, other)
}

// The fields of a header that share a number with others, and whether it has a physics trigger.
#[unsafe(no_mangle)]
pub extern "C" fn kesarimbu_parts(header: PlainHeader) -> PlainHeaderParts
    ensures { result ≡ parts_of (header_of header) }
{
    doors_header::kesarimbu_parts(header)
}

// Writes the row of a header.
#[unsafe(no_mangle)]
pub extern "C" fn kesarimbu_row(header: PlainHeader, out: &mut [u8]) -> PlainText
    ensures answer { result ≡ plain_written (written (row_text (header_of header)) out.old) }
    ensures left { out.new ≡ overwritten (row_text (header_of header)) out.old }
{
    doors_header::kesarimbu_row(header, out)
}
