// RDH0: header ID, header size, FEE id, priority bit, system id and reserved bits.
ghost use Rattle.std.specs.Prelude.{◌≡◌};
ghost use Rattle.sanity.specs.Tests.{any_fails, rdh0_tests};

use crate::fee_id;
use rdh::rdh0::Rdh0;
use sanity::rdh0::{header_id_fails, header_size_fails, priority_bit_fails, system_id_fails};
use sanity::{Criteria, reserved0_fails};

#[tactic(auto, using(crate::specs::TestsLaws::any_of_6), unfolding(sanity::specs::Tests::rdh0_tests))]
pub fn fails(criteria: Criteria, rdh0: Rdh0) -> bool
    ensures { result ≡ any_fails (rdh0_tests criteria rdh0) }
{
    let header_id = header_id_fails(criteria, rdh0.header_id);
    let header_size = header_size_fails(rdh0.header_size);
    let fee_id = fee_id::fails(rdh0.fee_id);
    let priority_bit = priority_bit_fails(rdh0.priority_bit);
    let system_id = system_id_fails(criteria, rdh0.system_id);
    let reserved0 = reserved0_fails(rdh0.reserved0 as u32);
    header_id | header_size | fee_id | priority_bit | system_id | reserved0
}
