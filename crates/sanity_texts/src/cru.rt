// What the header has beside its words: data wrapper and data format.
ghost use Rattle.std.specs.Prelude.{◌≡◌};
ghost use Rattle.text_writer.specs.Writer.{extended};
ghost use Rattle.sanity.specs.Tests.{cru_tests, pieces};

use rdh::rdh_cru::RdhCru;
use sanity::cru::{data_format_fails, dw_fails};
use sanity_pieces::{Form, put_number};
use text_writer::TextWriter;

pub(crate) fn put(w: &mut TextWriter, rdh: RdhCru)
    ensures { w.new ≡ extended w.old (pieces (cru_tests rdh)) }
{
    let dw = rdh.dw();
    let data_format = rdh.data_format();
    put_number(w, dw_fails(dw), b"dw = ", Form::Hex, dw as u64);
    put_number(
        w,
        data_format_fails(data_format),
        b"data format = ",
        Form::Hex,
        data_format as u64,
    );
}
