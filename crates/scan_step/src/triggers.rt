// The trigger counts of a scan: how many of the headers that were counted had each trigger bit. Nothing outside this crate counts a word.
ghost use Rattle.std.specs.Prelude.{◌≡◌};
ghost use Rattle.scan_cdp.specs.Steps.{triggers_after};
ghost use Rattle.trigger_stats.specs.Counters.{counted};

use trigger_stats::COUNTERS;

// The trigger bit of each count. Bits 15 to 26 are spare and have none.
const BITS: [u32; COUNTERS] = [
    0, // orbit
    1, // hb
    2, // hbr
    3, // hc
    4, // pht
    5, // pp
    6, // cal
    7, // sot
    8, // eot
    9, // soc
    10, // eoc
    11, // tf
    12, // fe_rst
    13, // rt
    14, // rs
    27, // lhc_gap1
    28, // lhc_gap2
    29, // tpc_sync
    30, // tpc_rst
    31, // tof
];

// Counts the trigger word of a header that step 2 counted.
#[tactic(auto, unfolding(scan_cdp::specs::Steps::triggers_after))]
pub(crate) fn count_trigger(due: bool, triggers: &mut [u32; COUNTERS], trigger: u32)
    ensures { triggers.new ≡ triggers_after due trigger triggers.old }
{
    if due {
        collect_stats(triggers, trigger);
    }
}

// Adds each bit of the word to its count, by sums that wrap as the Rust's release build does.
fn collect_stats(counts: &mut [u32; COUNTERS], trigger: u32)
    ensures { counts.new ≡ counted counts.old trigger }
{
    for place in 0..COUNTERS {
        counts[place] = counts[place].wrapping_add(trigger >> BITS[place] & 1);
    }
}
