// The loads of `bench` for a program in C that times them.
#![tactic(auto)]

ghost use Rattle.std.specs.Prelude.{true, ◌≡◌};
ghost use Rattle.bench.specs.Counted.{CountsAll, settings_of};

use trigger_stats::COUNTERS;

// How many packets a recording has, up to the first refusal.
#[unsafe(no_mangle)]
pub extern "C" fn kesarimbu_load_all(
    fd: i32,
    buffer: &mut [u8],
    whole: bool,
    triggers: &mut [u32; COUNTERS],
    fee_ids: &mut [u16],
    skip_payload: bool,
    stats: bool,
) -> u64
    ensures { whole ≡ true
        → CountsAll (settings_of skip_payload stats) triggers.old fee_ids.old buffer.old result
        triggers.new }
{
    bench::kesarimbu_load_all(fd, buffer, whole, triggers, fee_ids, skip_payload, stats)
}
