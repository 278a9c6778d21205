// Loads over a recording, for a program in C that times them: nothing is done with a packet but to count it.
#![tactic(auto)]

ghost use Rattle.std.specs.Prelude.{true, ◌≡◌, ◌≤◌, length};
ghost use Rattle.basis.specs.Pick.{pick};
ghost use Rattle.listing_window.specs.Held.{nothing};
ghost use Rattle.scan_cdp.specs.Scans.{SameScan};
ghost use Rattle.bench.specs.Counted.{AllCounted, CountsAll, all, settings_of};

use filter::FilterOpt;
use listing_window::Held;
use scan_cdp::{BytePlace, LoadCdp, Scan, Settings, State};
use std::io::{Error, ErrorKind, Read, Result, Seek, SeekFrom};
use trigger_stats::COUNTERS;

// A file of the caller's, by its descriptor. A read waits until what is lent is full or nothing more comes, and takes a failure for the end.
// It cannot be sought: what is skipped is read and dropped.
#[derive(Drop)]
struct Descriptor(i32);

impl Read for Descriptor {
    fn read(&mut self, buf: &mut [u8]) -> Result<usize> {
        Ok(io::read_full(self.0, buf))
    }
}

impl Seek for Descriptor {
    fn seek(&mut self, _to: SeekFrom) -> Result<u64> {
        Err(Error::from(ErrorKind::NotSeekable))
    }
}

// How many packets a recording has, up to the first refusal. It is read from a file through the window that `buffer` holds; or, if it is
// `whole`, the buffer is the recording, and nothing is read. The trigger counts are lent, since of an array that nobody reads the compiler
// would leave the counting out.
pub fn kesarimbu_load_all(
    fd: i32,
    buffer: &mut [u8],
    whole: bool,
    triggers: &mut [u32; COUNTERS],
    fee_ids: &mut [u16],
    skip_payload: bool,
    stats: bool,
) -> u64
    ensures { whole ≡ true
        → CountsAll (settings_of skip_payload stats) triggers.old fee_ids.old buffer.old result
        triggers.new }
{
    let state = State::new();
    let mut links = state.links;
    let mut scan = Scan {
        set: settings(skip_payload, stats),
        progress: state.progress,
        links: &mut links,
        triggers,
        fee_ids,
    };
    let held = at_start(whole, buffer.len());
    load_all(&mut scan, &mut Descriptor(fd), buffer, held)
}

// The packets that a scan loads. There is one call of the load for both, as in a program that uses it. Nothing says that an input ends, and a
// proved loop must: so the turns are counted, up to a number that no run reaches.
fn load_all(scan: &mut Scan, input: &mut Descriptor, buffer: &mut [u8], held: Held) -> u64
    requires { held.length ≤ length buffer.old }
    ensures same { SameScan scan.old scan.new }
    ensures counted { held ≡ all (length buffer.old) → AllCounted scan.old buffer.old result scan.new }
{
    let mut held = held;
    let mut packets = 0;
    for _ in 0..u64::MAX {
        let found = match input_scanner::load_cdp(scan, held.window(buffer)).answer {
            Ok(found) => found,
            Err(_) => return packets,
        };
        match found {
            LoadCdp::Packet(_) => packets += 1,
            LoadCdp::Want(place, size) => {
                let Ok(next) = listing_window::refill(input, buffer, held, place, size) else {
                    return packets;
                };
                held = next;
            }
        }
    }
    packets
}

// The whole recording, or nothing yet.
fn at_start(whole: bool, length: usize) -> Held
    ensures { result ≡ pick whole (all length) nothing }
{
    if whole {
        return Held {
            first: BytePlace(0),
            length,
            last: true,
        };
    }
    listing_window::empty()
}

fn settings(skip_payload: bool, stats: bool) -> Settings
    ensures { result ≡ settings_of skip_payload stats }
{
    Settings {
        filter: FilterOpt::default(),
        skip_payload,
        stats,
    }
}
