// The numbers of a stave name.
#![tactic(auto)]

ghost use Rattle.std.specs.Prelude.{◌≡◌, ◌+◌, ◌-◌, ◌*◌, ◌<◌, SomeIff};
ghost use Rattle.its_names_numbers.specs.Numbers.{digit0, number_of};
ghost use Rattle.its_names_numbers.specs.NumberGrammar.{Digit};
ghost use Rattle.its_names_numbers.specs.Parsing.{DigitsParsed};

// A number as Rust's `parse::<u8>` takes it: an optional `+`, then digits.
#[tactic(auto, using(crate::proofs::Numbers::signed_number, crate::proofs::Numbers::plain_number))]
pub fn parse_u8(text: &[u8]) -> Option<u8>
    ensures { result ≡ number_of text.now }
{
    match text {
        [b'+', digits @ ..] => parse_digits(digits),
        _ => parse_digits(text),
    }
}

// The number that one or more digits spell, if it is at most 255. There may be any number of leading zeros.
#[tactic(auto, using(crate::proofs::Numbers::none_passed, crate::proofs::Numbers::digit_passed, crate::proofs::Numbers::too_large, crate::proofs::Numbers::all_passed))]
fn parse_digits(text: &[u8]) -> Option<u8>
    ensures { DigitsParsed text.now result }
{
    if text.is_empty() {
        return None;
    }
    let mut value = 0;
    for &digit in text {
        if !digit.is_ascii_digit() {
            return None;
        }
        value = with_digit(value, digit)?;
    }
    Some(value)
}

// The value with one more digit behind it, if it is at most 255.
fn with_digit(value: u8, digit: u8) -> Option<u8>
    requires { Digit digit }
    ensures { SomeIff result (value * 10 + (digit - digit0) < 256) (value * 10 + (digit - digit0)) }
{
    value.checked_mul(10)?.checked_add(digit - b'0')
}
