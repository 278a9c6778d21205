// The tests of RDH0: header ID, header size, FEE id, priority bit, system id and reserved bits.
ghost use Rattle.std.specs.Prelude.{◌≡◌};
ghost use Rattle.sanity.specs.Tests.{header_id_test, header_size_test, priority_bit_test, system_id_test};

use crate::Criteria;

const HEADER_SIZE: u8 = 0x40;

const ITS_SYSTEM_ID: u8 = 32;

pub fn header_id_fails(criteria: Criteria, header_id: u8) -> bool
    ensures { result ≡ (header_id_test criteria header_id).fails }
{
    header_id != criteria.header_id
}

pub fn header_size_fails(header_size: u8) -> bool
    ensures { result ≡ (header_size_test header_size).fails }
{
    header_size != HEADER_SIZE
}

pub fn priority_bit_fails(priority_bit: u8) -> bool
    ensures { result ≡ (priority_bit_test priority_bit).fails }
{
    priority_bit != 0
}

// Tested with ITS alone.
pub fn system_id_fails(criteria: Criteria, system_id: u8) -> bool
    ensures { result ≡ (system_id_test criteria system_id).fails }
{
    criteria.its & (system_id != ITS_SYSTEM_ID)
}
