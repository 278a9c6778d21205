// RDH2: reserved bits, stop bit and trigger type.
ghost use Rattle.std.specs.Prelude.{◌≡◌};
ghost use Rattle.sanity.specs.Tests.{any_fails, rdh2_tests};

use rdh::rdh2::Rdh2;
use sanity::rdh2::{stop_bit_fails, trigger_type_fails};
use sanity::reserved0_fails;

#[tactic(auto, using(crate::specs::TestsLaws::any_of_3), unfolding(sanity::specs::Tests::rdh2_tests))]
pub fn fails(rdh2: Rdh2) -> bool
    ensures { result ≡ any_fails (rdh2_tests rdh2) }
{
    let reserved0 = reserved0_fails(rdh2.reserved0 as u32);
    let stop_bit = stop_bit_fails(rdh2.stop_bit);
    reserved0 | stop_bit | trigger_type_fails(rdh2.trigger_type)
}
