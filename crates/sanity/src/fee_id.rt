// The tests of a FEE id: reserved bits, stave and layer.
ghost use Rattle.std.specs.Prelude.{◌≡◌};
ghost use Rattle.std.specs.Int.Bits.{bit_and};
ghost use Rattle.sanity.specs.Tests.{layer_test, reserved_bits_test, stave_test};

use its::{LAYER_MAX, STAVE_NUMBER_MAX};
use rdh::rdh0::FeeId;

const RESERVED_BITS_MASK: u16 = 0b1000_1100_1100_0000;

pub fn reserved_bits(fee_id: FeeId) -> u16
    ensures { result ≡ bit_and fee_id.0 0x8CC0 }
{
    fee_id.0 & RESERVED_BITS_MASK
}

pub fn reserved_bits_fail(reserved_bits: u16) -> bool
    ensures { result ≡ (reserved_bits_test reserved_bits).fails }
{
    reserved_bits != 0
}

pub fn stave_number_fails(stave_number: u8) -> bool
    ensures { result ≡ (stave_test stave_number).fails }
{
    stave_number > STAVE_NUMBER_MAX
}

pub fn layer_fails(layer: u8) -> bool
    ensures { result ≡ (layer_test layer).fails }
{
    layer > LAYER_MAX
}
