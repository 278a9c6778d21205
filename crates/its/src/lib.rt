// FEE ids of the inner tracking system (ITS).
#![tactic(auto)]

ghost use Rattle.std.specs.Prelude.{◌≡◌};
ghost use Rattle.rdh.specs.Subfields.{layer_of, stave_of, uplink_of};
ghost use Rattle.its.specs.FeeIds.{fee_id_of, same_stave};

use rdh::rdh0::FeeId;

// The highest layer that there is, and the highest stave of a layer.
pub const LAYER_MAX: u8 = 6;

pub const STAVE_NUMBER_MAX: u8 = 47;

// A FEE id keeps three bits of the layer, from bit 12 on, and six bits of the stave, from bit 0 on.
const LAYER_MASK: u16 = 0b0111;

const LAYER_LSB_IDX: u16 = 12;

const STAVE_MASK: u16 = 0b11_1111;

const LAYER_STAVE_MASK: u16 = 0x703F;

// The number of the stave within its layer, from the six lowest bits.
pub fn stave_number_from_feeid(fee_id: u16) -> u8
    ensures { result ≡ stave_of fee_id }
{
    FeeId(fee_id).stave()
}

// The layer, from bits 12 to 14.
pub fn layer_from_feeid(fee_id: u16) -> u8
    ensures { result ≡ layer_of fee_id }
{
    FeeId(fee_id).layer()
}

// The fibre uplink, from bits 8 and 9.
pub fn uplink_from_feeid(fee_id: u16) -> u8
    ensures { result ≡ uplink_of fee_id }
{
    FeeId(fee_id).uplink()
}

// The FEE id of a layer and a stave, at uplink 0. A layer above 7 or a stave above 63 loses its higher bits, as in the Rust; no name is read
// so.
pub fn feeid_from_layer_stave(layer: u8, stave: u8) -> u16
    ensures { result ≡ fee_id_of layer stave }
{
    ((layer as u16 & LAYER_MASK) << LAYER_LSB_IDX) | (stave as u16 & STAVE_MASK)
}

// Whether two FEE ids are of one stave: the uplink is ignored.
#[tactic(auto, unfolding(crate::specs::FeeIds::same_stave))]
pub fn is_match_feeid_layer_stave(a_fee_id: u16, b_fee_id: u16) -> bool
    ensures { result ≡ same_stave a_fee_id b_fee_id }
{
    (a_fee_id & LAYER_STAVE_MASK) == (b_fee_id & LAYER_STAVE_MASK)
}
