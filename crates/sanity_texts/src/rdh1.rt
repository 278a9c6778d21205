// RDH1: reserved bits and bunch counter.
ghost use Rattle.std.specs.Prelude.{◌≡◌};
ghost use Rattle.text_writer.specs.Writer.{extended};
ghost use Rattle.sanity.specs.Tests.{rdh1_tests, section};

use rdh::rdh1::Rdh1;
use sanity::rdh1::bc_fails;
use sanity_pieces::{Form, put_number, put_reserved0};
use sanity_words::rdh1::fails;
use text_writer::TextWriter;

pub(crate) fn put(w: &mut TextWriter, rdh1: Rdh1)
    ensures { w.new ≡ extended w.old (section "RDH1: " (rdh1_tests rdh1)) }
{
    if !fails(rdh1) {
        return w.write_bytes(b"");
    }
    let bc = rdh1.bc();
    w.write_bytes(b"RDH1: ");
    put_reserved0(w, rdh1.reserved0());
    put_number(w, bc_fails(bc), b"BC = ", Form::Hex, bc as u64);
}
