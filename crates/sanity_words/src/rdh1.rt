// RDH1: reserved bits and bunch counter.
ghost use Rattle.std.specs.Prelude.{◌≡◌};
ghost use Rattle.sanity.specs.Tests.{any_fails, rdh1_tests};

use rdh::rdh1::Rdh1;
use sanity::rdh1::bc_fails;
use sanity::reserved0_fails;

#[tactic(auto, using(crate::specs::TestsLaws::any_of_2), unfolding(sanity::specs::Tests::rdh1_tests))]
pub fn fails(rdh1: Rdh1) -> bool
    ensures { result ≡ any_fails (rdh1_tests rdh1) }
{
    let reserved0 = reserved0_fails(rdh1.reserved0());
    reserved0 | bc_fails(rdh1.bc())
}
