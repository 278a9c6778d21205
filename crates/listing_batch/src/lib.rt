// The lines of successive loads, put into one lent buffer.
#![tactic(auto)]

ghost use Rattle.std.specs.Prelude.{◌≡◌, length};
ghost use Rattle.scan_cdp.specs.Answers.{load_answer};
ghost use Rattle.scan_cdp.specs.Scans.{SameScan, state_of};
ghost use Rattle.listing_batch.specs.Batches.{Batches, batched, is_packet};
ghost use Rattle.listing_batch.specs.Listings.{listed_into, listing_of};

use scan_cdp::{LoadCdp, Refusal, Scan, Window};
use text::TooShort;
use text_writer::TextWriter;
use validators::RdhCruSanityValidator;

// Why no further load was made: its lines might not have had the room; or the last load answered this, which is no packet.
#[derive(Clone, Copy, Debug, PartialEq, Eq)]
pub enum Stop {
    Full,
    Answered(Result<LoadCdp, Refusal>),
}

// Why the loads ended, how many bytes were put, and how many of the packets are not sound. What is left for the next call is in the scan and in
// the validator.
#[derive(Clone, Copy, Debug, PartialEq, Eq)]
pub struct Batch {
    pub stop: Stop,
    pub length: usize,
    pub unsound: u64,
}

// Makes loads and puts their lines at the start of `out`, one behind the other, while there is room for those of any load. A buffer that has
// not even room for one is refused, since it would stop every call: then no load is made, and everything lent is as it was.
pub fn list_loads(
    scan: &mut Scan,
    validator: &mut RdhCruSanityValidator,
    window: Window,
    out: &mut [u8],
) -> Result<Batch, TooShort>
    ensures listed { listing_of result scan.new validator.new out.new
        ≡ listed_into out.old scan.old.set validator.old (state_of scan.old) scan.old.fee_ids.now
        window.entry.bytes.now window.entry.first.0 window.entry.last }
    ensures same { SameScan scan.old scan.new }
{
    if out.len() < listing_lines::ROOM {
        return Err(TooShort {
            needed: listing_lines::ROOM,
        });
    }
    Ok(put_loads(scan, validator, window, out))
}

// The same, with no word on a buffer that is too short.
fn put_loads(
    scan: &mut Scan,
    validator: &mut RdhCruSanityValidator,
    window: Window,
    out: &mut [u8],
) -> Batch
    ensures listed { Batches
        (batched scan.old.set validator.old (state_of scan.old) scan.old.fee_ids.now
        window.entry.bytes.now window.entry.first.0 window.entry.last (length out.old))
        out.old result scan.new validator.new out.new }
    ensures same { SameScan scan.old scan.new }
{
    let mut w = TextWriter::new(out, 0);
    let mut unsound = 0;
    while listing_lines::ROOM <= w.buf.len() - w.count {
        let listed = listing_load::list_cdp(scan, validator, window, &mut w);
        let answer = listed.load.answer;
        unsound += u64::from(listed.unsound);
        if !is_packet(answer) {
            return Batch {
                stop: Stop::Answered(answer),
                length: w.count(),
                unsound,
            };
        }
    }
    Batch {
        stop: Stop::Full,
        length: w.count(),
        unsound,
    }
}

fn is_packet(answer: Result<LoadCdp, Refusal>) -> bool
    ensures { result ≡ is_packet (load_answer answer) }
{
    matches!(answer, Ok(LoadCdp::Packet(_)))
}
