// What C and Python call: the examination of a header and the load of a packet, over structs by value that C has too.
#![tactic(auto)]

ghost use Rattle.std.specs.Prelude.{◌≡◌};
ghost use Rattle.doors_scan.specs.Doors.{HandedBack, examined_through, left, loaded_through};

use crate::header::put_header;
use doors_scan_reply::{PlainReply, reply_of};
use doors_scan_structs::{PlainSettings, PlainState};
use input_scanner::{examine, load_cdp};
use rdh::rdh_cru::RDH_CRU_SIZE_BYTES;
use scan_cdp::{BytePlace, LoadCdp, LoadMarks, Progress, Refusal, Scan, Settings, Window};
use trigger_stats::COUNTERS;

mod header;

// Examines the header at the state's byte place.
#[tactic(auto, unfolding(crate::specs::Doors::examined_through))]
pub fn kesarimbu_examine(
    settings: PlainSettings,
    state: PlainState,
    links: &mut [u8; 256],
    triggers: &mut [u32; COUNTERS],
    fee_ids: &mut [u16],
    window: &[u8],
    first: u64,
    last: bool,
    header: &mut [u8; RDH_CRU_SIZE_BYTES],
) -> PlainReply
    ensures { left result links.new triggers.new fee_ids.new header.new
        ≡ examined_through settings state links.old triggers.old fee_ids.old window.now first last
        header.old }
{
    let mut scan = Scan {
        set: Settings::from(settings),
        progress: Progress::from(state),
        links,
        triggers,
        fee_ids,
    };
    let window = Window {
        bytes: window,
        first: BytePlace(first),
        last,
    };
    let examination = examine(&mut scan, window);
    hand_back(
        examination.answer,
        LoadMarks::from(examination.marks),
        &scan,
        header,
    )
}

// Loads the next packet.
#[tactic(auto, unfolding(crate::specs::Doors::loaded_through))]
pub fn kesarimbu_load(
    settings: PlainSettings,
    state: PlainState,
    links: &mut [u8; 256],
    triggers: &mut [u32; COUNTERS],
    fee_ids: &mut [u16],
    window: &[u8],
    first: u64,
    last: bool,
    header: &mut [u8; RDH_CRU_SIZE_BYTES],
) -> PlainReply
    ensures { left result links.new triggers.new fee_ids.new header.new
        ≡ loaded_through settings state links.old triggers.old fee_ids.old window.now first last
        header.old }
{
    let mut scan = Scan {
        set: Settings::from(settings),
        progress: Progress::from(state),
        links,
        triggers,
        fee_ids,
    };
    let window = Window {
        bytes: window,
        first: BytePlace(first),
        last,
    };
    let load = load_cdp(&mut scan, window);
    hand_back(load.answer.map(Some), load.marks, &scan, header)
}

// Writes a packet's header, and gives the rest as the reply.
fn hand_back(
    answer: Result<Option<LoadCdp>, Refusal>,
    marks: LoadMarks,
    scan: &Scan,
    header: &mut [u8; RDH_CRU_SIZE_BYTES],
) -> PlainReply
    ensures { HandedBack answer marks scan.now header.old result header.new }
{
    put_header(answer, header);
    reply_of(answer, marks, scan.progress)
}
