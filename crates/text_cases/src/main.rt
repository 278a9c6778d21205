// Shows how the crate `text_writer` is used from Rattle: texts put into buffers of many lengths at many places. Each line has the buffer, which
// held dots before, between brackets, and the place that was given back.
#![tactic(auto)]

use std::io;
use text_writer::TextWriter;

// What is put: a byte, a byte string, a number of blanks, a number, alone or with the width that it is padded to, or a position.
#[derive(Clone, Copy, Debug, PartialEq, Eq)]
enum Piece<'a> {
    Byte(u8),
    Bytes(&'a [u8]),
    Blanks(usize),
    Decimal(u64),
    Hex(u64),
    Position(u64),
    DecimalLeft(u64, usize),
    HexLeft(u64, usize),
    DecimalRight(u64, usize),
}

fn put(out: &mut [u8], at: usize, piece: Piece) -> usize {
    let mut w = TextWriter::new(out, at);
    match piece {
        Piece::Byte(b) => w.write_byte(b),
        Piece::Bytes(s) => w.write_bytes(s),
        Piece::Blanks(n) => w.write_blanks(n),
        Piece::Decimal(n) => w.write_decimal(n),
        Piece::Hex(n) => w.write_hex(n),
        Piece::Position(n) => listing_lines::position::put(&mut w, scan_cdp::Position(n)),
        Piece::DecimalLeft(n, width) => w.write_decimal_left(n, width),
        Piece::HexLeft(n, width) => w.write_hex_left(n, width),
        Piece::DecimalRight(n, width) => w.write_decimal_right(n, width),
    }
    w.count()
}

fn shown(rt: &impl Print, out: &[u8], place: usize) -> io::Result<()> {
    cases_show::text(rt, b"[")?;
    cases_show::text(rt, out)?;
    cases_show::text(rt, b"]")?;
    cases_show::number(rt, place as u64)?;
    cases_show::end(rt)
}

fn put_shown(rt: &impl Print, out: &mut [u8], at: usize, piece: Piece) -> io::Result<()> {
    let place = put(out, at, piece);
    shown(rt, out, place)
}

fn case(rt: &impl Print, length: usize, at: usize, piece: Piece) -> io::Result<()> {
    let mut buffer = [b'.'; 32];
    if length <= 32 {
        put_shown(rt, &mut buffer[..length], at, piece)?;
    }
    Ok(())
}

fn strings(rt: &impl Print) -> io::Result<()> {
    cases_show::text(rt, b"a byte\n")?;
    case(rt, 3, 0, Piece::Byte(b'x'))?;
    case(rt, 3, 2, Piece::Byte(b'x'))?;
    case(rt, 3, 3, Piece::Byte(b'x'))?;
    case(rt, 0, 0, Piece::Byte(b'x'))?;
    case(rt, 3, 18446744073709551614, Piece::Byte(b'x'))?;
    case(rt, 3, 18446744073709551615, Piece::Byte(b'x'))?;
    cases_show::text(rt, b"a byte string\n")?;
    case(rt, 6, 0, Piece::Bytes(b"abc"))?;
    case(rt, 6, 2, Piece::Bytes(b"abc"))?;
    case(rt, 6, 4, Piece::Bytes(b"abc"))?;
    case(rt, 6, 6, Piece::Bytes(b"abc"))?;
    case(rt, 6, 1, Piece::Bytes(b""))?;
    case(rt, 0, 0, Piece::Bytes(b"abc"))?;
    case(rt, 6, 18446744073709551614, Piece::Bytes(b"abc"))?;
    cases_show::text(rt, b"blanks\n")?;
    case(rt, 6, 0, Piece::Blanks(3))?;
    case(rt, 6, 4, Piece::Blanks(0))?;
    case(rt, 6, 4, Piece::Blanks(2))?;
    case(rt, 6, 4, Piece::Blanks(3))?;
    case(rt, 6, 7, Piece::Blanks(3))?;
    case(rt, 6, 3, Piece::Blanks(18446744073709551615))?;
    case(rt, 0, 0, Piece::Blanks(5))
}

fn numbers(rt: &impl Print) -> io::Result<()> {
    cases_show::text(rt, b"decimal\n")?;
    case(rt, 2, 0, Piece::Decimal(0))?;
    case(rt, 2, 0, Piece::Decimal(9))?;
    case(rt, 2, 0, Piece::Decimal(10))?;
    case(rt, 4, 1, Piece::Decimal(99))?;
    case(rt, 4, 1, Piece::Decimal(100))?;
    case(rt, 4, 1, Piece::Decimal(1000))?;
    case(rt, 12, 1, Piece::Decimal(4294967295))?;
    case(rt, 0, 0, Piece::Decimal(4294967295))?;
    case(rt, 20, 0, Piece::Decimal(18446744073709551615))?;
    case(rt, 19, 0, Piece::Decimal(18446744073709551615))?;
    case(rt, 21, 0, Piece::Decimal(18446744073709551615))?;
    case(
        rt,
        4,
        18446744073709551600,
        Piece::Decimal(18446744073709551615),
    )?;
    cases_show::text(rt, b"hexadecimal\n")?;
    case(rt, 4, 0, Piece::Hex(0))?;
    case(rt, 4, 0, Piece::Hex(15))?;
    case(rt, 4, 0, Piece::Hex(16))?;
    case(rt, 6, 1, Piece::Hex(255))?;
    case(rt, 6, 1, Piece::Hex(256))?;
    case(rt, 6, 1, Piece::Hex(4096))?;
    case(rt, 12, 1, Piece::Hex(4294967295))?;
    case(rt, 18, 0, Piece::Hex(18446744073709551615))?;
    case(rt, 17, 0, Piece::Hex(18446744073709551615))?;
    case(rt, 0, 0, Piece::Hex(18446744073709551615))?;
    case(rt, 4, 18446744073709551613, Piece::Hex(171))
}

// A number into a buffer that is just long enough for it, and into one that is a byte too short.
fn just(rt: &impl Print, length: usize, piece: Piece) -> io::Result<()> {
    case(rt, length, 0, piece)?;
    if 0 < length {
        case(rt, length - 1, 0, piece)?;
    }
    Ok(())
}

fn just_decimal(rt: &impl Print) -> io::Result<()> {
    cases_show::text(rt, b"decimal, in just enough room and in a byte less\n")?;
    just(rt, 1, Piece::Decimal(0))?;
    just(rt, 1, Piece::Decimal(9))?;
    just(rt, 2, Piece::Decimal(10))?;
    just(rt, 2, Piece::Decimal(99))?;
    just(rt, 3, Piece::Decimal(100))?;
    just(rt, 10, Piece::Decimal(4294967295))?;
    just(rt, 10, Piece::Decimal(4294967296))?;
    just(rt, 20, Piece::Decimal(10000000000000000000))?;
    just(rt, 20, Piece::Decimal(18446744073709551615))
}

fn just_hexadecimal(rt: &impl Print) -> io::Result<()> {
    cases_show::text(rt, b"hexadecimal\n")?;
    just(rt, 3, Piece::Hex(0))?;
    just(rt, 3, Piece::Hex(15))?;
    just(rt, 4, Piece::Hex(16))?;
    just(rt, 4, Piece::Hex(255))?;
    just(rt, 5, Piece::Hex(256))?;
    just(rt, 10, Piece::Hex(4294967295))?;
    just(rt, 11, Piece::Hex(4294967296))?;
    just(rt, 18, Piece::Hex(1152921504606846976))?;
    just(rt, 18, Piece::Hex(18446744073709551615))
}

fn just_positions(rt: &impl Print) -> io::Result<()> {
    cases_show::text(rt, b"a position\n")?;
    just(rt, 3, Piece::Position(0))?;
    just(rt, 3, Piece::Position(15))?;
    just(rt, 4, Piece::Position(16))?;
    just(rt, 4, Piece::Position(171))?;
    just(rt, 5, Piece::Position(256))?;
    just(rt, 10, Piece::Position(4294967295))?;
    just(rt, 11, Piece::Position(4294967296))?;
    just(rt, 18, Piece::Position(1152921504606846976))?;
    just(rt, 18, Piece::Position(18446744073709551615))
}

fn columns(rt: &impl Print) -> io::Result<()> {
    cases_show::text(rt, b"to the left\n")?;
    case(rt, 8, 1, Piece::DecimalLeft(42, 6))?;
    case(rt, 8, 1, Piece::DecimalLeft(123456, 6))?;
    case(rt, 8, 0, Piece::DecimalLeft(1234567, 6))?;
    case(rt, 8, 0, Piece::DecimalLeft(7, 0))?;
    case(rt, 4, 1, Piece::DecimalLeft(42, 6))?;
    case(rt, 4, 18446744073709551610, Piece::DecimalLeft(42, 20))?;
    case(rt, 12, 0, Piece::HexLeft(0x4813, 10))?;
    case(rt, 12, 0, Piece::HexLeft(0xffffffff, 10))?;
    case(rt, 12, 0, Piece::HexLeft(0xffffffff, 4))?;
    case(rt, 3, 0, Piece::HexLeft(1, 4))?;
    cases_show::text(rt, b"to the right\n")?;
    case(rt, 8, 1, Piece::DecimalRight(42, 6))?;
    case(rt, 8, 1, Piece::DecimalRight(123456, 6))?;
    case(rt, 8, 0, Piece::DecimalRight(1234567, 6))?;
    case(rt, 8, 0, Piece::DecimalRight(7, 0))?;
    case(rt, 4, 1, Piece::DecimalRight(42, 6))?;
    case(rt, 6, 1, Piece::DecimalRight(42, 6))?;
    case(rt, 4, 18446744073709551610, Piece::DecimalRight(42, 20))
}

fn main(rt: HostRuntime) -> io::Result<()> {
    let rt = &rt;
    strings(rt)?;
    numbers(rt)?;
    just_decimal(rt)?;
    just_hexadecimal(rt)?;
    just_positions(rt)?;
    columns(rt)
}
