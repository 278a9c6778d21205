// What becomes of one header: the refusals and the filter, in their order.
#![tactic(auto)]

ghost use Rattle.std.specs.Prelude.{◌≡◌};
ghost use Rattle.scan_cdp.specs.Outcomes.{bad_memory_size, bad_offset, is_counted, filtered, hands_out, matched, outcome_of};

use rdh::rdh_cru::{RDH_SIZE, RdhCru};
use scan_cdp::{Outcome, Settings};

// The largest offset: 10 KB behind the header.
const MAX_OFFSET: u16 = 10_064;

// Whether the offset to the next header is refused.
pub fn sanity_check_offset_next(offset: u16) -> bool
    ensures { result ≡ bad_offset offset }
{
    (offset < RDH_SIZE) | (offset > MAX_OFFSET)
}

// Whether the memory size of a match is refused: with the payload read and with it skipped.
fn sanity_check_memory_size(memory_size: u16) -> bool
    ensures { result ≡ bad_memory_size memory_size }
{
    memory_size < RDH_SIZE
}

// What becomes of a header. `first`: it is the first of its load; `full`: its FEE id is to be counted, is new, and has no place.
// A first header is counted before its offset is tested, a later one after.
#[tactic(auto, unfolding(scan_cdp::specs::Outcomes::outcome_of))]
pub fn outcome_of(set: Settings, first: bool, full: bool, rdh: RdhCru) -> Outcome
    ensures { result ≡ outcome_of set first full rdh }
{
    if first & full {
        return Outcome::FeeIdsFull;
    }
    if sanity_check_offset_next(rdh.offset_new_packet) {
        return Outcome::BadOffset;
    }
    if full {
        return Outcome::FeeIdsFull;
    }
    filtered(set, rdh)
}

// What the filter and the memory size make of a header whose offset is good.
#[tactic(auto, unfolding(scan_cdp::specs::Outcomes::filtered))]
fn filtered(set: Settings, rdh: RdhCru) -> Outcome
    ensures { result ≡ filtered set rdh }
{
    let target = filter::filter_target(set.filter);
    if !filter::is_rdh_filter_target(rdh.link_id, rdh.rdh0.fee_id.0, target) {
        return Outcome::Passed;
    }
    if sanity_check_memory_size(rdh.memory_size) {
        return Outcome::MemorySize;
    }
    Outcome::HandedOut
}

// A header with its outcome, in a scan that is asked for `set`.
#[derive(Clone, Copy)]
pub struct Judged {
    pub set: Settings,
    pub rdh: RdhCru,
    pub first: bool, // of its load
    pub outcome: Outcome,
}

impl Judged {
    // Whether step 2 counted the header.
    pub fn is_counted(self) -> bool
        ensures { result ≡ is_counted self.first self.outcome }
    {
        self.first | (self.outcome != Outcome::BadOffset)
    }

    // Whether the header matched the filter and came to the test of its memory size.
    pub fn is_match(self) -> bool
        ensures { result ≡ matched self.outcome }
    {
        matches!(self.outcome, Outcome::MemorySize | Outcome::HandedOut)
    }

    pub fn hands_out(self) -> bool
        ensures { result ≡ hands_out self.outcome }
    {
        self.outcome == Outcome::HandedOut
    }
}
