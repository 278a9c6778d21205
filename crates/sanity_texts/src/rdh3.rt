// RDH3: reserved bits and detector field.
ghost use Rattle.std.specs.Prelude.{◌≡◌};
ghost use Rattle.text_writer.specs.Writer.{extended};
ghost use Rattle.sanity.specs.Tests.{rdh3_tests, section};

use rdh::rdh3::Rdh3;
use sanity::rdh3::detector_field_fails;
use sanity_pieces::{Form, put_number, put_reserved0};
use sanity_words::rdh3::fails;
use text_writer::TextWriter;

pub(crate) fn put(w: &mut TextWriter, rdh3: Rdh3)
    ensures { w.new ≡ extended w.old (section "RDH3: " (rdh3_tests rdh3)) }
{
    if !fails(rdh3) {
        return w.write_bytes(b"");
    }
    let detector_field = detector_field_fails(rdh3.detector_field);
    w.write_bytes(b"RDH3: ");
    put_reserved0(w, rdh3.reserved0 as u32);
    put_number(
        w,
        detector_field,
        b"detector_field = ",
        Form::Hex,
        rdh3.detector_field as u64,
    );
}
