// A text writer: it holds a lent buffer and the number of bytes written, and each of its methods writes one text behind those written before.
// A text that does not fit is written as far as it fits and counted whole: the count is then the length needed.
#![tactic(auto)]

ghost use Rattle.std.specs.Prelude.{◌≡◌, [], ◌∷◌, suc, length, replicate, take};
ghost use Rattle.text_numbers.specs.Numerals.{decimal, hex, left, right, upper_hex};
ghost use Rattle.text_writer.specs.Writer.{begun, extended};

pub use whole::{Text, write_text};

mod whole;

#[derive(Drop)]
pub struct TextWriter<'a> {
    pub buf: &'a mut [u8],
    pub count: usize,
}

impl<'a> TextWriter<'a> {
    // A writer that goes on behind the first `count` bytes of the buffer.
    pub fn new(buf: &'a mut [u8], count: usize) -> TextWriter<'a>
        ensures { result ≡ begun buf.entry count }
    {
        TextWriter { buf, count }
    }

    // The number of bytes written, once there is no more to write. The buffer is as it was.
    pub fn count(self) -> usize
        ensures { (result ≡ self.entry.count) × (self.exit.0.now ≡ self.entry.buf.now) }
    {
        self.count
    }

    // One byte.
    pub fn write_byte(&mut self, b: u8)
        ensures { self.new ≡ extended self.old (b ∷ []) }
    {
        self.count = text::put_byte(&mut *self.buf, self.count, b);
    }

    // A byte string.
    pub fn write_bytes(&mut self, s: &[u8])
        ensures { self.new ≡ extended self.old s.now }
    {
        self.count = text::put_bytes(&mut *self.buf, self.count, s);
    }

    // `n` blanks.
    pub fn write_blanks(&mut self, n: usize)
        ensures { self.new ≡ extended self.old (replicate n 32) }
    {
        self.count = text::put_blanks(&mut *self.buf, self.count, n);
    }

    // A number in decimal.
    pub fn write_decimal(&mut self, n: u64)
        ensures { self.new ≡ extended self.old (decimal n) }
    {
        self.count = text_numbers::put_decimal(&mut *self.buf, self.count, n);
    }

    // A number in hexadecimal, in lower case and with `0x` in front.
    pub fn write_hex(&mut self, n: u64)
        ensures { self.new ≡ extended self.old (hex n) }
    {
        self.count = text_numbers::put_hex(&mut *self.buf, self.count, n);
    }

    // A number in hexadecimal, in upper case and with `0x` in front.
    pub fn write_upper_hex(&mut self, n: u64)
        ensures { self.new ≡ extended self.old (upper_hex n) }
    {
        self.count = text_numbers::put_upper_hex(&mut *self.buf, self.count, n);
    }

    // A number in decimal, with blanks behind it up to the width.
    pub fn write_decimal_left(&mut self, n: u64, width: usize)
        ensures { self.new ≡ extended self.old (left width (decimal n)) }
    {
        self.count = text_numbers::put_decimal_left(&mut *self.buf, self.count, n, width);
    }

    // A number in hexadecimal, with blanks behind it up to the width. In line, so that the count of a row stands in a register.
    #[inline(always)]
    pub fn write_hex_left(&mut self, n: u64, width: usize)
        ensures { self.new ≡ extended self.old (left width (hex n)) }
    {
        self.count = text_numbers::put_hex_left(&mut *self.buf, self.count, n, width);
    }

    // A number in decimal, with blanks in front of it up to the width.
    pub fn write_decimal_right(&mut self, n: u64, width: usize)
        ensures { self.new ≡ extended self.old (right width (decimal n)) }
    {
        self.count = text_numbers::put_decimal_right(&mut *self.buf, self.count, n, width);
    }
}
