// The window of a scan on an input that is read as the scan goes on: a buffer, and what it holds of the input. The input may be a file
// or a pipe, and a read may give any number of bytes.
#![tactic(auto)]

ghost use Rattle.std.specs.Prelude.{◌≡◌, ◌-◌, ◌≤◌, ◌<◌, min, length, take};
ghost use Rattle.listing_window.specs.Held.{ReadsOn, Shows, held_from, nothing, nothing_from, slid};

use scan_cdp::{BytePlace, LIMIT, Window};
use std::io;
use std::io::{ErrorKind, Read, Seek, SeekFrom};

// What a buffer holds: so many bytes, from a byte place of the input on, and whether the input ends with them.
#[derive(Clone, Copy, Debug, PartialEq, Eq)]
pub struct Held {
    pub first: BytePlace,
    pub length: usize,
    pub last: bool,
}

impl Held {
    // The window that a scan is lent: what the buffer holds, or all of it where it is shorter than that.
    pub fn window<'a>(self, buffer: &'a [u8]) -> Window<'a>
        ensures bytes { result.bytes.now ≡ take self.length buffer.now }
        ensures first { result.first ≡ self.first }
        ensures last { result.last ≡ self.last }
    {
        Window {
            bytes: &buffer[..self.length.min(buffer.len())],
            first: self.first,
            last: self.last,
        }
    }
}

// Nothing was read yet.
pub fn empty() -> Held
    ensures { result ≡ nothing }
{
    Held {
        first: BytePlace(0),
        length: 0,
        last: false,
    }
}

// Reads on until the buffer holds `size` bytes from `place` on, or the input ends. It keeps the bytes from that place on. What it
// reads in front of the place is dropped. A buffer that is too short for `size` bytes is filled. Where a read fails, it answers with
// the read's error, and the same where there is no buffer to read into.
#[tactic(auto, using(crate::proofs::HeldLaws::held_within, crate::proofs::HeldLaws::held_none))]
pub fn refill<R: Read + Seek>(
    input: &mut R,
    buffer: &mut [u8],
    held: Held,
    place: BytePlace,
    size: u64,
) -> io::Result<Held>
    ensures { Shows held buffer.old place.0 size buffer.new result }
{
    let kept = slide(buffer, held, place);
    let there = pass(input, buffer, kept, place)?;
    fill(input, buffer, there, size)
}

// Moves the bytes from `place` on to the front of the buffer.
#[tactic(auto, unfolding(crate::specs::Held::held_from, crate::specs::Held::slid))]
pub fn slide(buffer: &mut [u8], held: Held, place: BytePlace) -> Held
    ensures value { result ≡ held_from buffer.old held place.0 }
    ensures buffer_after { buffer.new ≡ slid buffer.old held place.0 }
{
    let length = held.length.min(buffer.len());
    let distance = distance(held.first, place, length);
    buffer.copy_within(distance..length, 0);
    Held {
        first: BytePlace(held.first.0 + distance as u64),
        length: length - distance,
        last: held.last,
    }
}

// How many of the bytes from `first` on stand before `place`.
fn distance(first: BytePlace, place: BytePlace, length: usize) -> usize
    ensures { result ≡ min (place.0 - first.0) length }
{
    place.0.saturating_sub(first.0).min(length as u64) as usize
}

// Goes on to `place`: skips what a file has before it, and reads and drops what a pipe has. What is held is at the place already, or nothing is held.
fn pass<R: Read + Seek>(
    input: &mut R,
    buffer: &mut [u8],
    held: Held,
    place: BytePlace,
) -> io::Result<Held>
    requires { (held.length ≤ length buffer.old) × (held.first.0 < place.0 → held.length ≡ 0) }
    ensures { ReadsOn held buffer.old place.0 0 buffer.new result }
{
    if held.last || place.0 <= held.first.0 {
        return Ok(held);
    }
    if is_skipped(input, place.0 - held.first.0) {
        return Ok(Held {
            first: place,
            length: 0,
            last: false,
        });
    }
    drop_up_to(input, buffer, held.first, place)
}

// Reads and drops the bytes from one place up to another that is ahead.
fn drop_up_to<R: Read>(
    input: &mut R,
    buffer: &mut [u8],
    from: BytePlace,
    place: BytePlace,
) -> io::Result<Held>
    requires { from.0 < place.0 }
    ensures { ReadsOn (nothing_from from) buffer.old place.0 0 buffer.new result }
{
    if buffer.is_empty() {
        return Err(io::Error::new(ErrorKind::InvalidInput, "no buffer to read into"));
    }
    let mut held = Held {
        first: from,
        length: 0,
        last: false,
    };
    while held.first.0 < place.0 {
        let end = distance(held.first, place, buffer.len());
        let n = input.read(&mut buffer[..end])?;
        if n == 0 {
            return Ok(Held { last: true, ..held });
        }
        held.first.0 += n as u64;
    }
    Ok(held)
}

// Skips so many bytes of the input, no more than byte places reach, if it is one that can be read from any place. A pipe is not, and answers
// that with an error.
fn is_skipped<R: Seek>(input: &mut R, distance: u64) -> bool {
    distance <= LIMIT && input.seek(SeekFrom::Current(distance as i64)).is_ok()
}

// Reads behind what is held, until there are `size` bytes, the buffer is full or the input ends.
fn fill<R: Read>(input: &mut R, buffer: &mut [u8], held: Held, size: u64) -> io::Result<Held>
    requires { held.length ≤ length buffer.old }
    ensures { ReadsOn held buffer.old held.first.0 size buffer.new result }
{
    if held.last {
        return Ok(held);
    }
    let wanted = distance(BytePlace(0), BytePlace(size), buffer.len());
    let mut there = held;
    while there.length < wanted {
        let n = input.read(&mut buffer[there.length..])?;
        if n == 0 {
            return Ok(Held {
                last: true,
                ..there
            });
        }
        there.length += n;
    }
    Ok(there)
}

#[cfg(test)]
mod tests {
    use super::*;
    use std::fs::File;
    use std::io::Cursor;

    // An input that tells how much was read of it, and that can be sought or not.
    #[derive(Drop)]
    struct Told<R> {
        input: R,
        read: u64,
        is_sought: bool,
    }

    impl<R: Read> Read for Told<R> {
        fn read(&mut self, buf: &mut [u8]) -> io::Result<usize> {
            let n = self.input.read(buf)?;
            self.read = self.read.saturating_add(n as u64);
            Ok(n)
        }
    }

    impl<R: Seek> Seek for Told<R> {
        fn seek(&mut self, to: SeekFrom) -> io::Result<u64> {
            if self.is_sought {
                self.input.seek(to)
            } else {
                Err(io::Error::from(ErrorKind::NotSeekable))
            }
        }
    }

    #[test]
    fn what_is_skipped_is_sought_where_it_can_be_and_else_read(rt: HostRuntime) -> io::Result<()> {
        let mut bytes = [0u8; 10200];
        bytes[10064] = 7;
        for (is_sought, read) in [(true, 64), (false, 10128)] {
            let mut input = Told {
                input: Cursor::new(&bytes[..]),
                read: 0,
                is_sought,
            };
            let mut buffer = [0u8; 64];
            let held = refill(&mut input, &mut buffer, empty(), BytePlace(10064), 64)?;
            assert_eq!(rt; (held.first.0, held.length, held.last), (10064, 64, false));
            assert_eq!(rt; buffer[0], 7);
            assert_eq!(rt; input.read, read);
        }
        Ok(())
    }

    // The test's own program is a file that is long enough.
    #[test]
    fn what_is_skipped_is_sought_in_a_file(rt: HostRuntime) -> io::Result<()> {
        let mut input = Told {
            input: File::open(&rt, "/proc/self/exe")?,
            read: 0,
            is_sought: true,
        };
        let mut buffer = [0u8; 64];
        let held = refill(&mut input, &mut buffer, empty(), BytePlace(5000), 64)?;
        assert_eq!(rt; (held.first.0, held.length, held.last), (5000, 64, false));
        assert_eq!(rt; input.read, 64);
        assert_eq!(rt; input.input.stream_position()?, 5064);
        Ok(())
    }
}
