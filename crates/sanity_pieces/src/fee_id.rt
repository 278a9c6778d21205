// The FEE id: reserved bits, stave and layer.
ghost use Rattle.std.specs.Prelude.{◌≡◌};
ghost use Rattle.text_writer.specs.Writer.{extended};
ghost use Rattle.sanity.specs.Tests.{fee_id_test, fee_id_tests, piece_of, pieces};

use crate::{Form, put_number};
use rdh::rdh0::FeeId;
use sanity::fee_id::{layer_fails, reserved_bits, reserved_bits_fail, stave_number_fails};
use sanity_words::fee_id::fails;
use text_writer::TextWriter;

// The pieces of the FEE id's own tests, between brackets.
pub fn put(w: &mut TextWriter, fee_id: FeeId)
    ensures { w.new ≡ extended w.old (piece_of (fee_id_test fee_id.0)) }
{
    if !fails(fee_id) {
        return w.write_bytes(b"");
    }
    w.write_bytes(b"FEE ID = [");
    put_pieces(w, fee_id);
    w.write_bytes(b"] ");
}

fn put_pieces(w: &mut TextWriter, fee_id: FeeId)
    ensures { w.new ≡ extended w.old (pieces (fee_id_tests fee_id.0)) }
{
    let reserved_bits = reserved_bits(fee_id);
    let stave_number = fee_id.stave();
    let layer = fee_id.layer();
    put_number(
        w,
        reserved_bits_fail(reserved_bits),
        b"reserved bits = ",
        Form::Hex,
        reserved_bits as u64,
    );
    put_number(
        w,
        stave_number_fails(stave_number),
        b"stave number = ",
        Form::Decimal,
        stave_number as u64,
    );
    put_number(
        w,
        layer_fails(layer),
        b"layer = ",
        Form::Decimal,
        layer as u64,
    );
}
