// The lines of a packet: its row, and its verdict if it is not sound.
#![tactic(auto)]

ghost use Rattle.std.specs.Prelude.{not, ◌≡◌, ◌≤◌, length};
ghost use Rattle.basis.specs.Pick.{pick};
ghost use Rattle.text_writer.specs.Writer.{extended};
ghost use Rattle.validators.specs.Verdict.{settled_by, sound_to, text_of};
ghost use Rattle.rdh_row.specs.Row.{row_text};
ghost use Rattle.listing_lines.specs.Lines.{line_at};
ghost use Rattle.listing_packet.specs.Packets.{Packs};
ghost use Rattle.listing_packet.specs.VerdictLineLaws.{Told};

use rdh::rdh_cru::RdhCru;
use scan_cdp::Position;
use text_writer::TextWriter;
use validators::{RdhCruSanityValidator, SanityCheck, Verdict};

// So many bytes hold every verdict's text.
const ROOM_OF_TEXT: usize = 512;

// The lines of a packet: its row, and its verdict if it is not sound. The validator is left for the next packet. Answers whether the packet is
// not sound.
pub fn put_packet(
    w: &mut TextWriter,
    validator: &mut RdhCruSanityValidator,
    position: Position,
    rdh: RdhCru,
) -> bool
    ensures { Packs validator.old position.0 rdh w.old validator.new result w.new }
{
    put_row_line(w, position, rdh);
    put_verdict_line(w, validator, position, rdh)
}

fn put_row_line(w: &mut TextWriter, position: Position, rdh: RdhCru)
    ensures { w.new ≡ extended w.old (line_at position.0 (row_text rdh)) }
{
    listing_lines::position::put(w, position);
    w.write_bytes(b": ");
    rdh_row::put_row(w, rdh);
    w.write_byte(b'\n');
}

// The line of a packet that is not sound. Answers whether it is not.
fn put_verdict_line(
    w: &mut TextWriter,
    validator: &mut RdhCruSanityValidator,
    position: Position,
    rdh: RdhCru,
) -> bool
    ensures validator { validator.new ≡ settled_by validator.old rdh }
    ensures unsound { result ≡ not (sound_to validator.old rdh) }
    ensures lines { w.new ≡ pick (sound_to validator.old rdh) w.old
        (extended w.old (line_at position.0 (text_of validator.old rdh))) }
    ensures short { length (text_of validator.old rdh) ≤ ROOM_OF_TEXT }
{
    let mut text = [0u8; ROOM_OF_TEXT];
    let check = check(*validator, rdh, &mut text);
    *validator = check.validator;
    match check.verdict.unwrap() {
        Verdict::Sound => false,
        Verdict::NotSound(length) => {
            listing_lines::put_line(w, position, &text[..length]);
            true
        }
    }
}

// The check of a header with room for any verdict's text, so that it is never refused. The validator comes by value, since owning one tells that its
// header ID is a byte, and is lent to the check here.
fn check(
    validator: RdhCruSanityValidator,
    rdh: RdhCru,
    text: &mut [u8; ROOM_OF_TEXT],
) -> SanityCheck
    ensures { Told validator rdh result.verdict result.validator text.new }
{
    let mut lent = validator;
    let verdict = lent.sanity_check_lent(rdh, text);
    SanityCheck {
        verdict,
        validator: lent,
    }
}
