// A position as the listing shows it.
ghost use Rattle.std.specs.Prelude.{◌≡◌};
ghost use Rattle.text_writer.specs.Writer.{extended};
ghost use Rattle.listing_lines.specs.Lines.{position_text};

use scan_cdp::Position;
use text_writer::TextWriter;

// `0x` and the digits, the letters among them in upper case: Rust's `{:#X}`.
pub fn put(w: &mut TextWriter, position: Position)
    ensures { w.new ≡ extended w.old (position_text position.0) }
{
    w.write_upper_hex(position.0);
}
