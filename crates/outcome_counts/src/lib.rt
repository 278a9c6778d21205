// What the outcome of one header counts.
#![tactic(auto)]

ghost use Rattle.std.specs.Prelude.{◌≡◌};
ghost use Rattle.scan_cdp.specs.Steps.{raised, tallied};

use outcome::Judged;
use scan_cdp::{Counts, Tally};
use stats::Count;

// The count with `n` more, if it is to be raised.
#[tactic(auto, unfolding(scan_cdp::specs::Steps::raised))]
fn raised(due: bool, count: u32, n: u32) -> Count
    ensures { result ≡ raised due count n }
{
    if due {
        return stats::add(count, n);
    }
    Count {
        value: count,
        carry: false,
    }
}

// The counts after a header that has its outcome.
#[tactic(auto, unfolding(scan_cdp::specs::Steps::tallied))]
pub fn tallied(judged: Judged, counts: Counts) -> Tally
    ensures { result ≡ tallied judged.set judged.first judged.outcome counts judged.rdh }
{
    let stats = judged.set.stats;
    let filtering = filter::filter_enabled(judged.set.filter);
    let size = u32::from(judged.rdh.payload_size());
    Tally {
        seen: raised(stats & judged.is_counted(), counts.seen, 1),
        filtered: raised(stats & filtering & judged.is_match(), counts.filtered, 1),
        payload: raised(stats & judged.hands_out(), counts.payload, size),
    }
}
