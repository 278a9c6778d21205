// Numbers as texts in a lent buffer, put as `text` puts bytes: in decimal, in hexadecimal, and with blanks up to a width.
#![tactic(auto)]

ghost use Rattle.std.specs.Prelude.{◌≡◌, ◌-◌, ◌++◌, map};
ghost use Rattle.text.specs.Ascii.{ascii};
ghost use Rattle.text.specs.Put.{Put};
ghost use Rattle.text_numbers.specs.Numerals.{cased, decimal, hex, left, numeral, right, upper_hex};

use digits::put_digits;
use text::{put_blanks, put_bytes};

mod digits;

// A number in decimal: 20 places hold the digits of any number.
pub fn put_decimal(out: &mut [u8], at: usize, n: u64) -> usize
    ensures { Put out.old at (decimal n) out.new result }
{
    put_digits::<10, 20, false>(out, at, n)
}

// A number in hexadecimal, in lower case and with `0x` in front.
pub fn put_hex(out: &mut [u8], at: usize, n: u64) -> usize
    ensures { Put out.old at (hex n) out.new result }
{
    put_prefixed::<false>(out, at, n)
}

// A number in hexadecimal, in upper case and with `0x` in front: Rust's `{:#X}`.
pub fn put_upper_hex(out: &mut [u8], at: usize, n: u64) -> usize
    ensures { Put out.old at (upper_hex n) out.new result }
{
    put_prefixed::<true>(out, at, n)
}

// `0x` and the digits: 16 places hold those of any number.
fn put_prefixed<const UPPER: bool>(out: &mut [u8], at: usize, n: u64) -> usize
    ensures { Put out.old at (ascii "0x" ++ map (cased UPPER) (numeral 16 16 n)) out.new result }
{
    let next = put_bytes(out, at, b"0x");
    put_digits::<16, 16, UPPER>(out, next, n)
}

// A number in decimal, with blanks behind it up to the width: Rust's `{:<width}`.
pub fn put_decimal_left(out: &mut [u8], at: usize, n: u64, width: usize) -> usize
    ensures { Put out.old at (left width (decimal n)) out.new result }
{
    let end = put_decimal(out, at, n);
    put_blanks(out, end, lacking(at, end, width))
}

// A number in hexadecimal, with blanks behind it up to the width.
pub fn put_hex_left(out: &mut [u8], at: usize, n: u64, width: usize) -> usize
    ensures { Put out.old at (left width (hex n)) out.new result }
{
    let next = put_hex(out, at, n);
    put_blanks(out, next, lacking(at, next, width))
}

// How many bytes a text from `at` to `next` lacks to the width.
fn lacking(at: usize, next: usize, width: usize) -> usize
    ensures { result ≡ width - (next - at) }
{
    width.saturating_sub(next.saturating_sub(at))
}

// A number in decimal, with blanks in front of it up to the width: Rust's `{:>width}`.
pub fn put_decimal_right(out: &mut [u8], at: usize, n: u64, width: usize) -> usize
    ensures { Put out.old at (right width (decimal n)) out.new result }
{
    let mut none = [0u8; 0];
    let len = put_decimal(&mut none, 0, n);
    let next = put_blanks(out, at, lacking(0, len, width));
    put_decimal(out, next, n)
}
