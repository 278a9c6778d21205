// The listing, many packets in one call.

ghost use Rattle.std.specs.Prelude.{◌≡◌};
ghost use Rattle.doors_list.specs.Doors.{left, listed_through};

use doors_list::PlainListed;
use doors_scan_structs::{PlainSettings, PlainState};
use doors_verdict::plain::PlainValidator;
use trigger_stats::COUNTERS;

// Puts the lines of successive loads at the start of `out`.
#[unsafe(no_mangle)]
pub extern "C" fn kesarimbu_list(
    settings: PlainSettings,
    state: PlainState,
    validator: PlainValidator,
    links: &mut [u8; 256],
    triggers: &mut [u32; COUNTERS],
    fee_ids: &mut [u16],
    window: &[u8],
    first: u64,
    last: bool,
    out: &mut [u8],
) -> PlainListed
    ensures { left result links.new triggers.new fee_ids.new out.new
        ≡ listed_through settings state validator links.old triggers.old fee_ids.old window.now
        first last out.old }
{
    doors_list::kesarimbu_list(
        settings, state, validator, links, triggers, fee_ids, window, first, last, out,
    )
}
