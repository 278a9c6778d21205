// What C and Python call for a verdict, on a validator that the caller keeps.
#![tactic(auto)]

ghost use Rattle.std.specs.Prelude.{◌≡◌, length};
ghost use Rattle.text.specs.Written.{overwritten};
ghost use Rattle.validators.specs.Verdict.{verdict_answer, text_of};
ghost use Rattle.doors_header_structs.specs.Plain.{header_of};
ghost use Rattle.doors_verdict.specs.Plain.{validator_of};
ghost use Rattle.doors_verdict.specs.Replies.{checked, plain_checked};

use crate::plain::PlainValidator;
use doors_header_structs::plain::{BUFFER_TOO_SHORT, NO_REFUSAL, PlainHeader};
use rdh::rdh_cru::RdhCru;
use validators::{RdhCruSanityValidator, SanityCheck, Verdict};

pub mod plain;

// The text's length, the verdict, and the validator for the next header.
#[repr(C)]
#[derive(Clone, Copy, Debug, PartialEq, Eq)]
pub struct PlainChecked {
    pub length: usize,
    pub refusal: u32,
    pub sound: bool,
    pub validator: PlainValidator,
}

// Checks a header, and writes the text that names what is wrong with it.
pub fn kesarimbu_check(
    validator: PlainValidator,
    header: PlainHeader,
    text: &mut [u8],
) -> PlainChecked
    ensures answer { result ≡ checked (validator_of validator) (header_of header) (length text.old) }
    ensures left { text.new ≡ overwritten (text_of (validator_of validator) (header_of header)) text.old }
{
    let validator = RdhCruSanityValidator::from(validator);
    PlainChecked::from(validator.sanity_check(RdhCru::from(header), text))
}

impl From<SanityCheck> for PlainChecked {
    fn from(check: SanityCheck) -> PlainChecked
        ensures { result ≡ plain_checked (verdict_answer check.verdict) check.validator }
    {
        let (length, refusal, sound) = match check.verdict {
            Ok(Verdict::Sound) => (0, NO_REFUSAL, true),
            Ok(Verdict::NotSound(length)) => (length, NO_REFUSAL, false),
            Err(short) => (short.needed, BUFFER_TOO_SHORT, false),
        };
        PlainChecked {
            length,
            refusal,
            sound,
            validator: PlainValidator::from(check.validator),
        }
    }
}
