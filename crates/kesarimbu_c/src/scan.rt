// The examination and the load.

ghost use Rattle.std.specs.Prelude.{◌≡◌};
ghost use Rattle.doors_scan.specs.Doors.{examined_through, left, loaded_through};

use doors_scan_reply::PlainReply;
use doors_scan_structs::{PlainSettings, PlainState};
use rdh::rdh_cru::RDH_CRU_SIZE_BYTES;
use trigger_stats::COUNTERS;

// Examines the header at the state's byte place.
#[unsafe(no_mangle)]
pub extern "C" fn kesarimbu_examine(
    settings: PlainSettings,
    state: PlainState,
    links: &mut [u8; 256],
    triggers: &mut [u32; COUNTERS],
    fee_ids: &mut [u16],
    window: &[u8],
    first: u64,
    last: bool,
    header: &mut [u8; RDH_CRU_SIZE_BYTES],
) -> PlainReply
    ensures { left result links.new triggers.new fee_ids.new header.new
        ≡ examined_through settings state links.old triggers.old fee_ids.old window.now first last
        header.old }
{
    doors_scan::kesarimbu_examine(
        settings, state, links, triggers, fee_ids, window, first, last, header,
    )
}

// Loads the next packet.
#[unsafe(no_mangle)]
pub extern "C" fn kesarimbu_load(
    settings: PlainSettings,
    state: PlainState,
    links: &mut [u8; 256],
    triggers: &mut [u32; COUNTERS],
    fee_ids: &mut [u16],
    window: &[u8],
    first: u64,
    last: bool,
    header: &mut [u8; RDH_CRU_SIZE_BYTES],
) -> PlainReply
    ensures { left result links.new triggers.new fee_ids.new header.new
        ≡ loaded_through settings state links.old triggers.old fee_ids.old window.now first last
        header.old }
{
    doors_scan::kesarimbu_load(
        settings, state, links, triggers, fee_ids, window, first, last, header,
    )
}
