// RDH0: header ID, header size, FEE id, priority bit, system id and reserved bits.
ghost use Rattle.std.specs.Prelude.{◌≡◌};
ghost use Rattle.text_writer.specs.Writer.{extended};
ghost use Rattle.sanity.specs.Tests.{rdh0_tests, section};

use rdh::rdh0::Rdh0;
use sanity::Criteria;
use sanity::rdh0::{header_size_fails, priority_bit_fails, system_id_fails};
use sanity_pieces::{Form, fee_id, put_header_id, put_number, put_reserved0};
use sanity_words::rdh0::fails;
use text_writer::TextWriter;

// The heading and the pieces of what fails; the empty text where all is sound.
pub fn put(w: &mut TextWriter, criteria: Criteria, rdh0: Rdh0)
    ensures { w.new ≡ extended w.old (section "RDH0: " (rdh0_tests criteria rdh0)) }
{
    if !fails(criteria, rdh0) {
        return w.write_bytes(b"");
    }
    let header_size = header_size_fails(rdh0.header_size);
    let priority_bit = priority_bit_fails(rdh0.priority_bit);
    let system_id = system_id_fails(criteria, rdh0.system_id);
    w.write_bytes(b"RDH0: ");
    put_header_id(w, criteria, rdh0.header_id);
    put_number(
        w,
        header_size,
        b"Header size = ",
        Form::Hex,
        rdh0.header_size as u64,
    );
    fee_id::put(w, rdh0.fee_id);
    put_number(
        w,
        priority_bit,
        b"Priority bit = ",
        Form::Hex,
        rdh0.priority_bit as u64,
    );
    put_number(
        w,
        system_id,
        b"system_id = ",
        Form::Hex,
        rdh0.system_id as u64,
    );
    put_reserved0(w, rdh0.reserved0 as u32);
}
