// The digits of a number in a base.
ghost use Rattle.std.specs.Prelude.{◌≡◌, ◌≤◌, ◌<◌, ◌^◌, map};
ghost use Rattle.text.specs.Put.{Put};
ghost use Rattle.text_numbers.specs.Numerals.{cased, glyph, numeral};

use text::put_bytes;

// With the letters in upper or in lower case. The digits are filled in from the last one back, and put in one go: there are places enough
// for those of any number.
pub(crate) fn put_digits<const BASE: u64, const PLACES: usize, const UPPER: bool>(
    out: &mut [u8],
    at: usize,
    n: u64,
) -> usize
    requires base { (1 < BASE) × (BASE ≤ 16) }
    requires places { (0 < PLACES) × (PLACES ≤ 64) × (2 ^ 64 ≤ BASE ^ PLACES) }
    ensures { Put out.old at (map (cased UPPER) (numeral BASE PLACES n)) out.new result }
{
    let mut digits = [0u8; PLACES];
    let mut first = PLACES - 1;
    digits[first] = digit::<UPPER>(n % BASE);
    let mut rest = n / BASE;
    while 0 < rest {
        first -= 1;
        digits[first] = digit::<UPPER>(rest % BASE);
        rest /= BASE;
    }
    let places = &digits[..];
    put_bytes(out, at, &places[first..])
}

// A digit's byte, `0` to `9` and then `a` to `f` or `A` to `F`.
fn digit<const UPPER: bool>(d: u64) -> u8
    requires { d < 16 }
    ensures { result ≡ cased UPPER (glyph d) }
{
    if d < 10 {
        (48 + d) as u8
    } else if UPPER {
        (55 + d) as u8
    } else {
        (87 + d) as u8
    }
}
