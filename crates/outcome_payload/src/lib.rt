// How much of a packet's payload is handed out, and where it stands in the window.
#![tactic(auto)]

ghost use Rattle.std.specs.Prelude.{◌≡◌, ◌+◌, nat_lt};
ghost use Rattle.scan_cdp.specs.Outcomes.{payload_size};
ghost use Rattle.scan_cdp.specs.Steps.{cut};
ghost use Rattle.scan_cdp.specs.Windows.{part_at};
ghost use Rattle.outcome_payload.specs.Reads.{Reads};

use outcome::Judged;
use rdh::rdh_cru::{RDH_CRU_SIZE_BYTES, RdhCru};
use scan_cdp::Part;

// Whether the payload is to be read and does not all stand in the bytes left, counted from the header's first byte.
#[tactic(auto, unfolding(scan_cdp::specs::Steps::cut))]
pub fn is_cut(judged: Judged, left: usize) -> bool
    ensures { result ≡ cut judged.set.skip_payload judged.outcome judged.rdh left }
{
    judged.hands_out() & !judged.set.skip_payload & is_short(judged.rdh, left)
}

// Whether the payload does not all stand in them.
pub fn is_short(rdh: RdhCru, left: usize) -> bool
    ensures { result ≡ nat_lt left (64 + payload_size rdh) }
{
    left < RDH_CRU_SIZE_BYTES + usize::from(rdh.payload_size())
}

// How many bytes of payload are handed out, if the header is.
#[tactic(auto, unfolding(scan_cdp::specs::Steps::cut, scan_cdp::specs::Steps::payload_of))]
pub fn read_size(judged: Judged, left: usize) -> usize
    ensures { Reads judged.set.skip_payload judged.rdh left result }
{
    let none = judged.set.skip_payload | is_short(judged.rdh, left);
    if none {
        0
    } else {
        usize::from(judged.rdh.payload_size())
    }
}

// The part of the window that a payload takes.
#[tactic(auto, unfolding(scan_cdp::specs::Windows::part_at))]
pub fn part(start: usize, length: usize) -> Part
    ensures { result ≡ part_at start length }
{
    if length == 0 {
        return Part {
            start: 0,
            length: 0,
        };
    }
    Part { start, length }
}
