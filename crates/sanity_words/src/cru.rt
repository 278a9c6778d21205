// What the header has beside its words: data wrapper and data format.
ghost use Rattle.std.specs.Prelude.{◌≡◌};
ghost use Rattle.sanity.specs.Tests.{any_fails, cru_tests};

use rdh::rdh_cru::RdhCru;
use sanity::cru::{data_format_fails, dw_fails};

#[tactic(auto, using(crate::specs::TestsLaws::any_of_2), unfolding(sanity::specs::Tests::cru_tests))]
pub fn fails(rdh: RdhCru) -> bool
    ensures { result ≡ any_fails (cru_tests rdh) }
{
    let dw = dw_fails(rdh.dw());
    dw | data_format_fails(rdh.data_format())
}
