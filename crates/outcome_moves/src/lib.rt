// How far the outcome of one header moves byte place and position, and what becomes of its load.
#![tactic(auto)]

ghost use Rattle.std.specs.Prelude.{◌≡◌, ◌+◌, ◌≤◌};
ghost use Rattle.outcome_moves.specs.Moves.{PlaceMoves, PositionMoves};
ghost use Rattle.scan_cdp.specs.Steps.{load_after, start_of};
ghost use Rattle.scan_cdp.specs.declared.Outcome.TheVariants.{HandedOut};

use outcome::Judged;
use outcome_payload::is_short;
use rdh::rdh_cru::RDH_CRU_SIZE_BYTES;
use scan_cdp::{Outcome, Position};

// How far the byte place moves on.
#[tactic(auto, unfolding(scan_cdp::specs::Steps::place_after))]
pub fn place_moved(judged: Judged, left: usize) -> usize
    ensures { PlaceMoves judged.set.skip_payload judged.outcome judged.rdh left result × (result ≤ left + 65535) }
{
    match judged.outcome {
        Outcome::FeeIdsFull | Outcome::BadOffset | Outcome::MemorySize => RDH_CRU_SIZE_BYTES,
        Outcome::Passed => usize::from(judged.rdh.offset_new_packet),
        Outcome::HandedOut => read_moved(judged, left),
    }
}

// How far it moves on behind a packet: after a payload was read by the memory size, and not by the offset; at a cut one to the end.
#[tactic(auto, unfolding(scan_cdp::specs::Steps::cut, scan_cdp::specs::Steps::place_after))]
fn read_moved(judged: Judged, left: usize) -> usize
    ensures { PlaceMoves judged.set.skip_payload HandedOut judged.rdh left result × (result ≤ left + 65535) }
{
    if judged.set.skip_payload {
        return usize::from(judged.rdh.offset_new_packet);
    }
    if is_short(judged.rdh, left) {
        return left;
    }
    usize::from(judged.rdh.memory_size)
}

// How far the reported position moves on.
pub fn position_moved(judged: Judged) -> u64
    ensures { PositionMoves judged.outcome judged.rdh result × (result ≤ 65535) }
{
    match judged.outcome {
        Outcome::FeeIdsFull | Outcome::BadOffset | Outcome::MemorySize => 0,
        Outcome::Passed | Outcome::HandedOut => u64::from(judged.rdh.offset_new_packet),
    }
}

// The position at which the load of a header started, which is the header's own if it is the first.
pub fn start_of(load: Option<Position>, position: Position) -> Position
    ensures { result ≡ start_of load position }
{
    load.unwrap_or(position)
}

// The load after a header at this position.
pub fn load_after(outcome: Outcome, load: Option<Position>, position: Position) -> Option<Position>
    ensures { result ≡ load_after outcome load position }
{
    match outcome {
        Outcome::Passed => Some(start_of(load, position)),
        _ => None,
    }
}
