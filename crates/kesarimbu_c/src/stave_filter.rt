// The filter by the name of a stave.

ghost use Rattle.std.specs.Prelude.{◌≡◌};
ghost use Rattle.its_names.specs.StaveNames.{named_fee};
ghost use Rattle.doors_filter.specs.Replies.{plain_stave_set};

use doors_filter::PlainStaveSet;
use doors_scan_structs::PlainSettings;

// The settings with the filter by stave set to the one that is named. A refused name leaves them as they were.
#[unsafe(no_mangle)]
pub extern "C" fn kesarimbu_set_stave(settings: PlainSettings, name: &[u8]) -> PlainStaveSet
    ensures { result ≡ plain_stave_set (named_fee name.now) settings }
{
    doors_filter::kesarimbu_set_stave(settings, name)
}
