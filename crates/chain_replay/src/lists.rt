// A list of calls for a caller that has what is asked for in four lists, which may differ in length.
ghost use Rattle.std.specs.Prelude.{◌≡◌, ◌<◌, min, length};
ghost use Rattle.scan_cdp.specs.Scans.{SameScan};
ghost use Rattle.chain_replay_calls.specs.OneCall.{keeps};
ghost use Rattle.chain_replay.specs.FourLists.{asked_in, calls_of_lists, kind_if};
ghost use Rattle.chain_replay.specs.Replays.{Replays, stand_at};

use crate::Replayed;
use chain_replay_calls::{Asked, CallKind};
use scan_cdp::Scan;

// Makes the calls, as many as all four lists have, up to the first reply that ends the chain: whether each is a load, the first place and the
// size of its window, and whether the window is to be the last.
#[tactic(auto, using(crate::proofs::ReplaysLaws::none_made, crate::proofs::ReplaysLaws::same_on))]
pub fn replay_lists(
    scan: &mut Scan,
    recording: &[u8],
    loads: &[bool],
    firsts: &[u64],
    sizes: &[u64],
    lasts: &[bool],
) -> Replayed
    ensures replays { Replays recording.now scan.old.set (keeps scan.old)
        (calls_of_lists recording.now loads.now firsts.now sizes.now lasts.now)
        (stand_at recording.now result.last scan.new) result.made }
    ensures same { SameScan scan.old scan.new }
{
    let mut last = None;
    let mut made = 0;
    let count = fewest(loads, firsts, sizes, lasts);
    for i in 0..count {
        let asked = asked_in(loads, firsts, sizes, lasts, i);
        let called = chain_replay_calls::call(scan, recording, asked);
        last = Some(called);
        made += 1;
        if called.ends {
            return Replayed { last, made };
        }
    }
    Replayed { last, made }
}

// How many calls all four lists have.
fn fewest(loads: &[bool], firsts: &[u64], sizes: &[u64], lasts: &[bool]) -> usize
    ensures { result ≡ min (min (length loads.now) (length firsts.now)) (min (length sizes.now) (length lasts.now)) }
{
    loads
        .len()
        .min(firsts.len())
        .min(sizes.len().min(lasts.len()))
}

fn asked_in(loads: &[bool], firsts: &[u64], sizes: &[u64], lasts: &[bool], i: usize) -> Asked
    requires { (i < length loads.now) × (i < length firsts.now) × (i < length sizes.now) × (i < length lasts.now) }
    ensures { result ≡ asked_in loads.now firsts.now sizes.now lasts.now i }
{
    Asked {
        kind: kind(loads[i]),
        first: firsts[i],
        size: sizes[i],
        last: lasts[i],
    }
}

fn kind(load: bool) -> CallKind
    ensures { result ≡ kind_if load }
{
    if load {
        CallKind::Load
    } else {
        CallKind::Examination
    }
}
