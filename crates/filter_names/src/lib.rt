// The filter of a scan by the name of a stave.
#![tactic(auto)]

ghost use Rattle.std.specs.Prelude.{◌≡◌};
ghost use Rattle.its_names.specs.StaveNames.{name_answer, named_fee};
ghost use Rattle.filter_names.specs.StaveSetting.{stave_set};

use filter::FilterOpt;
use its_names::{NotAStaveName, layer_stave_string_to_feeid};

// Sets the filter by stave to the one that is named, which it answers, and leaves the other filters. A name that is refused sets nothing.
pub fn set_filter_its_stave(opt: &mut FilterOpt, name: &[u8]) -> Result<u16, NotAStaveName>
    ensures named { name_answer result ≡ named_fee name.now }
    ensures sets { opt.new ≡ stave_set (named_fee name.now) opt.old }
{
    let id = layer_stave_string_to_feeid(name)?;
    opt.filter_its_stave = Some(id);
    Ok(id)
}
