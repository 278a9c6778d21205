// The pieces of text that name single failures, in the Rust's words: the empty text where the test passed.
#![tactic(auto)]

ghost use Rattle.std.specs.Prelude.{◌≡◌, [], ◌++◌};
ghost use Rattle.basis.specs.Pick.{pick};
ghost use Rattle.text.specs.Ascii.{ascii};
ghost use Rattle.text_writer.specs.Writer.{extended};
ghost use Rattle.sanity.specs.Tests.{header_id_test, piece_of, reserved0_test};
ghost use Rattle.sanity_pieces.specs.Forms.{formed};

use sanity::rdh0::header_id_fails;
use sanity::{Criteria, reserved0_fails};
use text_writer::TextWriter;

pub mod fee_id;

// How a piece writes its number.
#[derive(Clone, Copy, Debug, PartialEq, Eq)]
pub enum Form {
    Decimal,
    Hex,
}

impl Form {
    fn put(self, w: &mut TextWriter, n: u64)
        ensures { w.new ≡ extended w.old (formed self n) }
    {
        match self {
            Form::Decimal => w.write_decimal(n),
            Form::Hex => w.write_hex(n),
        }
    }
}

// A label, a number and a blank.
pub fn put_number(w: &mut TextWriter, fails: bool, label: &[u8], form: Form, n: u64)
    ensures { w.new ≡ extended w.old (pick fails (label.now ++ formed form n ++ ascii " ") []) }
{
    if !fails {
        return w.write_bytes(b"");
    }
    w.write_bytes(label);
    form.put(w, n);
    w.write_byte(b' ');
}

// The header ID. No blank stands behind this piece, as in the Rust.
pub fn put_header_id(w: &mut TextWriter, criteria: Criteria, header_id: u8)
    ensures { w.new ≡ extended w.old (piece_of (header_id_test criteria header_id)) }
{
    if !header_id_fails(criteria, header_id) {
        return w.write_bytes(b"");
    }
    w.write_bytes(b"Header ID = ");
    w.write_decimal(header_id as u64);
    w.write_bytes(b" (expected ");
    w.write_decimal(criteria.header_id as u64);
    w.write_bytes(b")");
}

// The reserved part of any of the words.
pub fn put_reserved0(w: &mut TextWriter, reserved0: u32)
    ensures { w.new ≡ extended w.old (piece_of (reserved0_test reserved0)) }
{
    let fails = reserved0_fails(reserved0);
    put_number(w, fails, b"reserved0 = ", Form::Hex, reserved0 as u64);
}
