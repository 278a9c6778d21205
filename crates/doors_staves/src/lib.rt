// What C and Python call about FEE ids and stave names, over structs by value that C has too.
#![tactic(auto)]

ghost use Rattle.std.specs.Prelude.{◌≡◌};
ghost use Rattle.its.specs.FeeIds.{fee_id_of, same_stave};
ghost use Rattle.its_names.specs.StaveNames.{name_answer, named_fee};
ghost use Rattle.doors_staves.specs.Replies.{fee_parts, plain_named};

use doors_header_structs::plain::NO_REFUSAL;
use its_names::NotAStaveName;

// What C calls the refusal of a name.
pub const NOT_A_STAVE_NAME: u32 = 8;

#[repr(C)]
#[derive(Clone, Copy, Debug, PartialEq, Eq)]
pub struct PlainFeeParts {
    pub layer: u8,
    pub stave: u8,
    pub uplink: u8,
}

#[repr(C)]
#[derive(Clone, Copy, Debug, PartialEq, Eq)]
pub struct PlainNamed {
    pub refusal: u32,
    pub fee_id: u16,
}

// Layer, stave and fibre uplink of a FEE id.
pub fn kesarimbu_fee(fee_id: u16) -> PlainFeeParts
    ensures { result ≡ fee_parts fee_id }
{
    PlainFeeParts {
        layer: its::layer_from_feeid(fee_id),
        stave: its::stave_number_from_feeid(fee_id),
        uplink: its::uplink_from_feeid(fee_id),
    }
}

// The FEE id of a layer and a stave.
pub fn kesarimbu_fee_id(layer: u8, stave: u8) -> u16
    ensures { result ≡ fee_id_of layer stave }
{
    its::feeid_from_layer_stave(layer, stave)
}

// Whether two FEE ids have the same layer and stave.
pub fn kesarimbu_same_stave(fee_id: u16, other: u16) -> bool
    ensures { result ≡ same_stave fee_id other }
{
    its::is_match_feeid_layer_stave(fee_id, other)
}

// The FEE id of the stave that is named.
pub fn kesarimbu_name(name: &[u8]) -> PlainNamed
    ensures { result ≡ plain_named (named_fee name.now) }
{
    PlainNamed::from(its_names::layer_stave_string_to_feeid(name))
}

impl From<Result<u16, NotAStaveName>> for PlainNamed {
    fn from(named: Result<u16, NotAStaveName>) -> PlainNamed
        ensures { result ≡ plain_named (name_answer named) }
    {
        match named {
            Ok(fee_id) => PlainNamed {
                refusal: NO_REFUSAL,
                fee_id,
            },
            Err(NotAStaveName) => PlainNamed {
                refusal: NOT_A_STAVE_NAME,
                fee_id: 0,
            },
        }
    }
}
