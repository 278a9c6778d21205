// FEE ids and stave names.

ghost use Rattle.std.specs.Prelude.{◌≡◌};
ghost use Rattle.its.specs.FeeIds.{fee_id_of, same_stave};
ghost use Rattle.its_names.specs.StaveNames.{named_fee};
ghost use Rattle.doors_staves.specs.Replies.{fee_parts, plain_named};

use doors_staves::{PlainFeeParts, PlainNamed};

// Layer, stave and fibre uplink of a FEE id.
#[unsafe(no_mangle)]
pub extern "C" fn kesarimbu_fee(fee_id: u16) -> PlainFeeParts
    ensures { result ≡ fee_parts fee_id }
{
    doors_staves::kesarimbu_fee(fee_id)
}

// The FEE id of a layer and a stave.
#[unsafe(no_mangle)]
pub extern "C" fn kesarimbu_fee_id(layer: u8, stave: u8) -> u16
    ensures { result ≡ fee_id_of layer stave }
{
    doors_staves::kesarimbu_fee_id(layer, stave)
}

// Whether two FEE ids have the same layer and stave.
#[unsafe(no_mangle)]
pub extern "C" fn kesarimbu_same_stave(fee_id: u16, other: u16) -> bool
    ensures { result ≡ same_stave fee_id other }
{
    doors_staves::kesarimbu_same_stave(fee_id, other)
}

// The FEE id of the stave that is named.
#[unsafe(no_mangle)]
pub extern "C" fn kesarimbu_name(name: &[u8]) -> PlainNamed
    ensures { result ≡ plain_named (named_fee name.now) }
{
    doors_staves::kesarimbu_name(name)
}
