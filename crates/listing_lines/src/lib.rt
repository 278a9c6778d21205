// The lines of the listing: a line with a position, and the last lines.
#![tactic(auto)]

ghost use Rattle.std.specs.Prelude.{◌≡◌};
ghost use Rattle.text_writer.specs.Writer.{extended};
ghost use Rattle.scan_cdp.specs.Answers.{number_of};
ghost use Rattle.listing_lines.specs.Lines.{count_line, last_lines, line_at};

use scan_cdp::{Counts, Position, Refusal};
use text_writer::TextWriter;

pub mod position;

// So many bytes hold the lines of any packet, and the last lines.
pub const ROOM: usize = 1024;

// A position, a colon, a blank, a text and the end of the line.
pub fn put_line(w: &mut TextWriter, position: Position, s: &[u8])
    ensures { w.new ≡ extended w.old (line_at position.0 s.now) }
{
    position::put(w, position);
    w.write_bytes(b": ");
    w.write_bytes(s);
    w.write_byte(b'\n');
}

// The last lines: the counts, and the number of the refusal.
pub fn put_last(w: &mut TextWriter, counts: Counts, why: Refusal)
    ensures { w.new ≡ extended w.old (last_lines counts (number_of why)) }
{
    put_count(w, b"seen", counts.seen as u64);
    put_count(w, b"filtered", counts.filtered as u64);
    put_count(w, b"payload", counts.payload as u64);
    put_count(w, b"end", why.number() as u64);
}

fn put_count(w: &mut TextWriter, name: &[u8], n: u64)
    ensures { w.new ≡ extended w.old (count_line name.now n) }
{
    w.write_bytes(name);
    w.write_byte(b' ');
    w.write_decimal(n);
    w.write_byte(b'\n');
}
