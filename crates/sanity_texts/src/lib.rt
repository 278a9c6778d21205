// The text that names what is wrong with a header, in the Rust's words. A module for each word of the header, as the Rust has a validator
// for each.
#![tactic(auto)]

ghost use Rattle.std.specs.Prelude.{◌≡◌};
ghost use Rattle.text_writer.specs.Writer.{extended};
ghost use Rattle.sanity.specs.Tests.{failure_text};

use rdh::rdh_cru::RdhCru;
use sanity::Criteria;
use text_writer::TextWriter;

mod cru;
pub mod rdh0;
mod rdh1;
mod rdh2;
mod rdh3;

// The text of a header that is not sound.
pub fn put_text(w: &mut TextWriter, criteria: Criteria, rdh: RdhCru)
    ensures { w.new ≡ extended w.old (failure_text criteria rdh) }
{
    w.write_bytes(b"[E10] RDH sanity check failed: ");
    rdh0::put(w, criteria, rdh.rdh0);
    rdh1::put(w, rdh.rdh1);
    rdh2::put(w, rdh.rdh2);
    rdh3::put(w, rdh.rdh3);
    cru::put(w, rdh);
}
