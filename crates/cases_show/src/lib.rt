// What the test programs print with. No contract can say what a program writes, so these functions promise only that they
// are safe and end; what they wrote is held to the program's stored output. Where a write fails they answer with its error.
#![tactic(auto)]

use std::io;

// The bytes as they stand.
pub fn text(rt: &impl Print, s: &[u8]) -> io::Result<()> {
    rt.write_all(s)
}

// A number in decimal, with a blank before it.
pub fn number(rt: &impl Print, n: u64) -> io::Result<()> {
    print!(rt; " {n}")
}

// A number in hexadecimal with `0x`, with a blank before it.
pub fn hex(rt: &impl Print, n: u64) -> io::Result<()> {
    print!(rt; " 0x{n:x}")
}

// Each byte as two hexadecimal digits, with a blank before the first.
pub fn bytes(rt: &impl Print, s: &[u8]) -> io::Result<()> {
    print!(rt; " ")?;
    for b in s {
        print!(rt; "{b:02x}")?;
    }
    Ok(())
}

// The end of a line.
pub fn end(rt: &impl Print) -> io::Result<()> {
    println!(rt; "")
}
