// RDH3: reserved bits and detector field.
ghost use Rattle.std.specs.Prelude.{◌≡◌};
ghost use Rattle.sanity.specs.Tests.{any_fails, rdh3_tests};

use rdh::rdh3::Rdh3;
use sanity::rdh3::detector_field_fails;
use sanity::reserved0_fails;

#[tactic(auto, using(crate::specs::TestsLaws::any_of_2), unfolding(sanity::specs::Tests::rdh3_tests))]
pub fn fails(rdh3: Rdh3) -> bool
    ensures { result ≡ any_fails (rdh3_tests rdh3) }
{
    let reserved0 = reserved0_fails(rdh3.reserved0 as u32);
    reserved0 | detector_field_fails(rdh3.detector_field)
}
