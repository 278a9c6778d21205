// Whether a header fails any test. A module for each word of the header. Every function answers without a branch.
#![tactic(auto)]

ghost use Rattle.std.specs.Prelude.{◌≡◌};
ghost use Rattle.sanity.specs.Tests.{all_tests, any_fails};

use rdh::rdh_cru::RdhCru;
use sanity::Criteria;

pub mod cru;
pub mod fee_id;
pub mod rdh0;
pub mod rdh1;
pub mod rdh2;
pub mod rdh3;

// Whether any test fails. No text is made.
#[tactic(auto, using(crate::specs::TestsLaws::any_of_5_lists), unfolding(sanity::specs::Tests::all_tests))]
pub fn fails(criteria: Criteria, rdh: RdhCru) -> bool
    ensures { result ≡ any_fails (all_tests criteria rdh) }
{
    let rdh0 = rdh0::fails(criteria, rdh.rdh0);
    let rdh1 = rdh1::fails(rdh.rdh1);
    let rdh2 = rdh2::fails(rdh.rdh2);
    let rdh3 = rdh3::fails(rdh.rdh3);
    rdh0 | rdh1 | rdh2 | rdh3 | cru::fails(rdh)
}
