// The FEE id: reserved bits, stave and layer.
ghost use Rattle.std.specs.Prelude.{◌≡◌};
ghost use Rattle.sanity.specs.Tests.{any_fails, fee_id_tests};

use rdh::rdh0::FeeId;
use sanity::fee_id::{layer_fails, reserved_bits, reserved_bits_fail, stave_number_fails};

#[tactic(auto, using(crate::specs::TestsLaws::any_of_3), unfolding(sanity::specs::Tests::fee_id_tests))]
pub fn fails(fee_id: FeeId) -> bool
    ensures { result ≡ any_fails (fee_id_tests fee_id.0) }
{
    let reserved_bits = reserved_bits_fail(reserved_bits(fee_id));
    let stave_number = stave_number_fails(fee_id.stave());
    reserved_bits | stave_number | layer_fails(fee_id.layer())
}
