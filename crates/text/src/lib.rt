// Texts into a lent buffer. Every `put_` function takes a buffer and a place, writes what fits of its text from that place
// on, and gives the place behind the whole text. So a text is put piece by piece, and putting it into an empty buffer
// measures it.
#![tactic(auto)]

ghost use Rattle.std.specs.Prelude.{◌≡◌, [], ◌∷◌, Some, replicate};
ghost use Rattle.text.specs.Messages.{too_short_text};
ghost use Rattle.text.specs.Put.{Put};

use std::error::Error;
use std::fmt;

// Why a function refuses that writes a whole text: the buffer is shorter than the text, which needs this many bytes. Nothing is written then.
#[derive(Clone, Copy, Debug, PartialEq, Eq)]
pub struct TooShort {
    pub needed: usize,
}

impl fmt::Display for TooShort {
    ghost output = { λ e. Some (too_short_text e.needed) };

    fn fmt<W: fmt::Write>(&self, f: &mut fmt::Formatter<W>) -> fmt::Result {
        write!(
            f,
            "the buffer is too short: the text needs {} bytes",
            self.needed
        )
    }
}

impl Error for TooShort {}

// One byte.
pub fn put_byte(out: &mut [u8], at: usize, b: u8) -> usize
    ensures { Put out.old at (b ∷ []) out.new result }
{
    if at < out.len() {
        out[at] = b;
        return at + 1;
    }
    at.saturating_add(1)
}

// A byte string, byte by byte and by a counted place.
pub fn put_bytes(out: &mut [u8], at: usize, s: &[u8]) -> usize
    ensures { Put out.old at s.now out.new result }
{
    let mut next = at;
    let mut i = 0;
    while i < s.len() {
        let b = s[i];
        next = put_byte(out, next, b);
        i += 1;
    }
    next
}

// `n` blanks.
pub fn put_blanks(out: &mut [u8], at: usize, n: usize) -> usize
    ensures { Put out.old at (replicate n 32) out.new result }
{
    let end = at.saturating_add(n);
    let start = at.min(out.len());
    let stop = out.len().min(end);
    out[start..stop].fill(b' ');
    end
}
