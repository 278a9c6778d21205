// RDH2: reserved bits, stop bit and trigger type.
ghost use Rattle.std.specs.Prelude.{◌≡◌};
ghost use Rattle.text_writer.specs.Writer.{extended};
ghost use Rattle.sanity.specs.Tests.{rdh2_tests, section};

use rdh::rdh2::Rdh2;
use sanity::rdh2::{stop_bit_fails, trigger_type_fails};
use sanity_pieces::{Form, put_number, put_reserved0};
use sanity_words::rdh2::fails;
use text_writer::TextWriter;

pub(crate) fn put(w: &mut TextWriter, rdh2: Rdh2)
    ensures { w.new ≡ extended w.old (section "RDH2: " (rdh2_tests rdh2)) }
{
    if !fails(rdh2) {
        return w.write_bytes(b"");
    }
    let stop_bit = stop_bit_fails(rdh2.stop_bit);
    let trigger_type = trigger_type_fails(rdh2.trigger_type);
    w.write_bytes(b"RDH2: ");
    put_reserved0(w, rdh2.reserved0 as u32);
    put_number(w, stop_bit, b"stop bit = ", Form::Hex, rdh2.stop_bit as u64);
    put_number(
        w,
        trigger_type,
        b"Spare bits set in trigger_type = ",
        Form::Hex,
        rdh2.trigger_type as u64,
    );
}
