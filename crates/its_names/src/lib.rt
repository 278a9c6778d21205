// Stave names of the inner tracking system (ITS).
#![tactic(auto)]

ghost use Rattle.std.specs.Prelude.{◌≡◌, Some, MatchOption};
ghost use Rattle.its_names.specs.Messages.{not_a_stave_name_text};
ghost use Rattle.its_names.specs.StaveNames.{fee_of_stave, name_answer, named_fee, underscore};
ghost use Rattle.its_names.specs.StaveNameLaws.{Without};
ghost use Rattle.its_names.specs.Parsing.{NameParsed, FirstUnderscore};

use its::{LAYER_MAX, STAVE_NUMBER_MAX};
use its_names_numbers::parse_u8;
use std::error::Error;
use std::fmt;

// How far the FEE ids of a layer are from those of the next one.
const LAYER_STEP: u16 = 0x1000;

// Refusal 8: the text names no stave that there is.
#[derive(Clone, Copy, Debug, PartialEq, Eq)]
pub struct NotAStaveName;

impl fmt::Display for NotAStaveName {
    ghost output = { λ _. Some not_a_stave_name_text };

    fn fmt<W: fmt::Write>(&self, f: &mut fmt::Formatter<W>) -> fmt::Result {
        write!(f, "the text is not the name of a stave")
    }
}

impl Error for NotAStaveName {}

// The FEE id of the stave that is named, as `L5_42`, at uplink 0. A second `_` is refused, which the Rust overlooks; and so is a layer or a
// stave that there is not, which the Rust folds to one that there may be.
#[tactic(auto, using(crate::specs::StaveNameLaws::named_fee_lem, crate::specs::StaveNameLaws::unnamed_refused))]
pub fn layer_stave_string_to_feeid(name: &[u8]) -> Result<u16, NotAStaveName>
    ensures { name_answer result ≡ named_fee name.now }
{
    let (layer, stave) = parse_stave_name(name).ok_or(NotAStaveName)?;
    stave_feeid(layer, stave)
}

// The FEE id of a layer and a stave that there are. Its product and its sum are exact, so that no stave is taken for another.
#[tactic(auto, using(crate::specs::StaveNameLaws::there_given, crate::specs::StaveNameLaws::layer_refused, crate::specs::StaveNameLaws::stave_refused))]
fn stave_feeid(layer: u8, stave: u8) -> Result<u16, NotAStaveName>
    ensures { name_answer result ≡ fee_of_stave layer stave }
{
    if layer > LAYER_MAX || stave > STAVE_NUMBER_MAX {
        return Err(NotAStaveName);
    }
    Ok(layer as u16 * LAYER_STEP + stave as u16)
}

// The layer and the stave that a text has if it has the form of a stave name, be there such a stave or not: a first byte, which is any below
// 0x80 but `_`, and two numbers on the sides of the first `_`.
fn parse_stave_name(name: &[u8]) -> Option<(u8, u8)>
    ensures { NameParsed name.now result }
{
    let (&first, numbers) = name.split_first()?;
    if first >= 0x80 || first == b'_' {
        return None;
    }
    let mid = underscore_place(numbers)?;
    let layer = parse_u8(&numbers[..mid])?;
    let stave = parse_u8(&numbers[mid + 1..])?;
    Some((layer, stave))
}

// The place of the first `_`.
fn underscore_place(numbers: &[u8]) -> Option<usize>
    ensures { MatchOption result (Without underscore numbers.now) (λ place. FirstUnderscore numbers.now place) }
{
    numbers.iter().position(|&byte| byte == b'_')
}
