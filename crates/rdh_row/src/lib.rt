// The row that shows a header's key values in columns, as the Rust's `Display` writes it.
#![tactic(auto)]

ghost use Rattle.rdh_row.specs.Row.{row_text};
ghost use Rattle.std.specs.Prelude.{◌≡◌};
ghost use Rattle.text.specs.Written.{Writes};
ghost use Rattle.text_writer.specs.Writer.{extended};

use rdh::rdh_cru::RdhCru;
use rdh_columns::{Columns, put_columns};
use text::TooShort;
use text_writer::{Text, TextWriter, write_text};

// The length of the longest row: a buffer of this length is never too short.
const LONGEST_ROW: usize = 114;

// The row of a header.
#[derive(Clone, Copy)]
struct RdhRow {
    header: RdhCru,
}

impl Text for RdhRow {
    ghost text = { λ row. row_text row.header };

    fn longest(self) -> usize {
        LONGEST_ROW
    }

    fn put(self, w: &mut TextWriter) {
        put_row(w, self.header);
    }
}

// Writes the row of `h` at the start of `out`.
pub fn row(h: RdhCru, out: &mut [u8]) -> Result<usize, TooShort>
    ensures { Writes (row_text h) out.old result out.new }
{
    write_text(RdhRow { header: h }, out)
}

// Writes the row of `h`, for whoever writes more in front of it or behind it.
#[tactic(auto, using(crate::proofs::RowLaws::columns_row))]
pub fn put_row(w: &mut TextWriter, h: RdhCru)
    ensures { w.new ≡ extended w.old (row_text h) }
{
    put_columns(w, Columns::from(h));
}
