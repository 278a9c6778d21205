// What C and Python call to list packets, many of them in one call.
#![tactic(auto)]

ghost use Rattle.std.specs.Prelude.{◌≡◌};
ghost use Rattle.listing_batch.specs.Batches.{stop_of};
ghost use Rattle.doors_list.specs.Doors.{left, listed_through};
ghost use Rattle.doors_list.specs.Replies.{plain_stop};

use doors_header_structs::plain::BUFFER_TOO_SHORT;
use doors_scan_reply::{Kind, PlainAnswer};
use doors_scan_structs::{PlainSettings, PlainState};
use doors_verdict::plain::PlainValidator;
use listing_batch::{Stop, list_loads};
use scan_cdp::{BytePlace, Progress, Scan, Settings, Window};
use trigger_stats::COUNTERS;
use validators::RdhCruSanityValidator;

// A listing, as far as it went: why it stopped, what to go on with, how many bytes were written (or are needed, with refusal 7), and how many
// of the packets are not sound.
#[repr(C)]
#[derive(Clone, Copy, Debug, PartialEq, Eq)]
pub struct PlainListed {
    pub answer: PlainAnswer,
    pub state: PlainState,
    pub validator: PlainValidator,
    pub length: usize,
    pub unsound: u64,
}

// Puts the lines of successive loads at the start of `out`.
#[tactic(auto, unfolding(crate::specs::Doors::listed_through))]
pub fn kesarimbu_list(
    settings: PlainSettings,
    state: PlainState,
    validator: PlainValidator,
    links: &mut [u8; 256],
    triggers: &mut [u32; COUNTERS],
    fee_ids: &mut [u16],
    window: &[u8],
    first: u64,
    last: bool,
    out: &mut [u8],
) -> PlainListed
    ensures { left result links.new triggers.new fee_ids.new out.new
        ≡ listed_through settings state validator links.old triggers.old fee_ids.old window.now
        first last out.old }
{
    let mut scan = Scan {
        set: Settings::from(settings),
        progress: Progress::from(state),
        links,
        triggers,
        fee_ids,
    };
    let mut validator = RdhCruSanityValidator::from(validator);
    let window = Window {
        bytes: window,
        first: BytePlace(first),
        last,
    };
    let (answer, length, unsound) = match list_loads(&mut scan, &mut validator, window, out) {
        Ok(batch) => (plain_stop(batch.stop), batch.length, batch.unsound),
        Err(short) => (
            PlainAnswer::refused(BUFFER_TOO_SHORT, 0, 0),
            short.needed,
            0,
        ),
    };
    PlainListed {
        answer,
        state: PlainState::from(scan.progress),
        validator: PlainValidator::from(validator),
        length,
        unsound,
    }
}

// Why no further load was made.
fn plain_stop(stop: Stop) -> PlainAnswer
    ensures { result ≡ plain_stop (stop_of stop) }
{
    match stop {
        Stop::Full => PlainAnswer {
            kind: Kind::Full as u32,
            ..PlainAnswer::default()
        },
        Stop::Answered(answer) => PlainAnswer::from(answer.map(Some)),
    }
}
