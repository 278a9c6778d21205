// Lists the recording on standard input: a line for each packet, a further one if it is not sound, and at last the counts and the refusal
// that ended it. What stands in the lines is said by the crate `listing_load`; here is the reading and the writing.
#![tactic(auto)]

ghost use Rattle.std.specs.Prelude.{◌≡◌, ◌+◌, ◌≤◌, length, take, OnOk};
ghost use Rattle.listing_lines.specs.Lines.{room};

use listing_window::Held;
use scan_cdp::{LoadCdp, Scan, State, Window};
use std::fmt::InlineText;
use std::io;
use std::io::{ErrorKind, Read, Seek, SeekFrom};
use std::rt::Stdin;
use text_writer::TextWriter;

// Standard input, which is read and never sought.
#[derive(Drop)]
struct StandardInput(Stdin);

impl Read for StandardInput {
    fn read(&mut self, buf: &mut [u8]) -> io::Result<usize> {
        self.0.read(buf)
    }
}

impl Seek for StandardInput {
    fn seek(&mut self, _to: SeekFrom) -> io::Result<u64> {
        Err(io::Error::from(ErrorKind::NotSeekable))
    }
}

fn main(rt: HostRuntime) {
    let mut buffer = [0u8; 65536];
    let mut fee_ids = [0u16; 4096];
    let mut out = [0u8; 65536];
    let mut state = State::new();
    let mut scan = Scan {
        set: listing_start::list_settings(),
        progress: state.progress,
        links: &mut state.links,
        triggers: &mut state.triggers,
        fee_ids: &mut fee_ids,
    };
    let mut w = TextWriter::new(&mut out, 0);
    let mut input = StandardInput(rt.stdin());
    if let Err(e) = list(&rt, &mut scan, &mut input, &mut buffer, &mut w) {
        fail(&rt, "standard output", e);
    }
}

// Lists until a refusal, or until a read or a write fails. Answers with the error of a write; that of a read is said, and ends the listing.
// Nothing says that an input ends, and a proved loop must: so the turns are counted, up to a number that no run reaches. What each packet goes
// through is in line, here and below, so that scan and writer stand in registers.
#[inline(always)]
fn list<R: Print + Eprint>(
    rt: &R,
    scan: &mut Scan,
    input: &mut StandardInput,
    buffer: &mut [u8],
    w: &mut TextWriter,
) -> io::Result<()>
    requires { (w.old.count ≤ length w.old.buf.now) × (room ≤ length w.old.buf.now) }
{
    let mut validator = listing_start::new_validator();
    let mut held = listing_window::empty();
    for _ in 0..u64::MAX {
        make_room(rt, w)?;
        let window = shown(held, buffer);
        match listing_load::list_cdp(scan, &mut validator, window, w)
            .load
            .answer
        {
            Ok(LoadCdp::Packet(_)) => {}
            Ok(LoadCdp::Want(place, size)) => {
                match listing_window::refill(input, buffer, held, place, size) {
                    Ok(next) => held = next,
                    Err(e) => {
                        fail(rt, "standard input", e);
                        return flush(rt, w);
                    }
                }
            }
            Err(_) => return flush(rt, w),
        }
    }
    flush(rt, w)
}

// The window for the next load: all that is held, which stands in the buffer.
fn shown<'a>(held: Held, buffer: &'a [u8]) -> Window<'a>
    requires { held.length ≤ length buffer.now }
    ensures bytes { result.bytes.now ≡ take held.length buffer.now }
    ensures first { result.first ≡ held.first }
    ensures last { result.last ≡ held.last }
{
    held.window(buffer)
}

// Makes room for the lines of a load, behind those that are there; they are written out first if there is none.
#[inline(always)]
fn make_room<R: Print>(rt: &R, w: &mut TextWriter) -> io::Result<()>
    requires { (w.old.count ≤ length w.old.buf.now) × (room ≤ length w.old.buf.now) }
    ensures room { OnOk result (w.new.count + room ≤ length w.new.buf.now) }
    ensures same_length { length w.new.buf.now ≡ length w.old.buf.now }
{
    if w.buf.len() - w.count < listing_lines::ROOM {
        flush(rt, w)?;
        w.count = 0;
    }
    Ok(())
}

// Writes out the lines.
#[inline(always)]
fn flush<R: Print>(rt: &R, w: &TextWriter) -> io::Result<()>
    requires { w.now.count ≤ length w.now.buf.now }
{
    rt.write_all(&w.buf[..w.count])
}

// Writes a line to standard error: what failed, a colon and the system's words, without the number that std puts behind them.
fn fail(rt: &impl Eprint, what: &str, error: io::Error) {
    let said = InlineText::<256>::of(error);
    let words = said.as_str().split(" (os error ").next().unwrap_or("");
    let _ = eprintln!(rt; "{what}: {words}");
}
