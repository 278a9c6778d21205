// What C and Python call to filter by the name of a stave, over structs by value that C has too.
#![tactic(auto)]

ghost use Rattle.std.specs.Prelude.{◌≡◌};
ghost use Rattle.its_names.specs.StaveNames.{named_fee};
ghost use Rattle.doors_filter.specs.Replies.{plain_stave_set};

use doors_header_structs::plain::NO_REFUSAL;
use doors_scan_structs::PlainSettings;
use doors_staves::NOT_A_STAVE_NAME;
use its_names::NotAStaveName;

#[repr(C)]
#[derive(Clone, Copy, Debug, PartialEq, Eq)]
pub struct PlainStaveSet {
    pub settings: PlainSettings,
    pub refusal: u32,
}

// The settings with the filter by stave set to the one that is named. A refused name leaves them as they were.
pub fn kesarimbu_set_stave(settings: PlainSettings, name: &[u8]) -> PlainStaveSet
    ensures { result ≡ plain_stave_set (named_fee name.now) settings }
{
    match its_names::layer_stave_string_to_feeid(name) {
        Ok(fee_id) => PlainStaveSet {
            settings: PlainSettings {
                by_stave: true,
                stave: fee_id,
                ..settings
            },
            refusal: NO_REFUSAL,
        },
        Err(NotAStaveName) => PlainStaveSet {
            settings,
            refusal: NOT_A_STAVE_NAME,
        },
    }
}
