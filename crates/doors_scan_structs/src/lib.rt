// The settings and the state of a scan as structs that C has too. Every value of them is one of the scan's.
#![tactic(auto)]

ghost use Rattle.std.specs.Prelude.{◌≡◌};
ghost use Rattle.doors_scan_structs.specs.Plain.{plain_state, progress_of, settings_of};

use filter::FilterOpt;
use scan_cdp::{BytePlace, Counts, Position, Progress, Settings};

// What a scan is asked for. A filter's number counts only where its `by_` is set.
#[repr(C)]
#[derive(Clone, Copy, Debug, PartialEq, Eq, Default)]
pub struct PlainSettings {
    pub by_link: bool,
    pub by_fee: bool,
    pub by_stave: bool,
    pub link: u8,
    pub fee: u16,
    pub stave: u16,
    pub skip_payload: bool,
    pub stats: bool,
}

// What a scan keeps between two calls, beside the links, the trigger counts and the FEE ids, which are lent. `load_start` counts only while a
// load is open, and is left at 0 otherwise.
#[repr(C)]
#[derive(Clone, Copy, Debug, PartialEq, Eq, Default)]
pub struct PlainState {
    pub place: u64,
    pub position: u64,
    pub load_start: u64,
    pub links_used: usize,
    pub fee_ids_used: usize,
    pub seen: u32,
    pub filtered: u32,
    pub payload: u32,
    pub load_open: bool,
}

impl From<PlainSettings> for Settings {
    fn from(n: PlainSettings) -> Settings
        ensures { result ≡ settings_of n }
    {
        Settings {
            filter: FilterOpt {
                filter_link: n.by_link.then_some(n.link),
                filter_fee: n.by_fee.then_some(n.fee),
                filter_its_stave: n.by_stave.then_some(n.stave),
            },
            skip_payload: n.skip_payload,
            stats: n.stats,
        }
    }
}

// All of a state but the links and the trigger counts ..
impl From<PlainState> for Progress {
    fn from(n: PlainState) -> Progress
        ensures { result ≡ progress_of n }
    {
        Progress {
            place: BytePlace(n.place),
            position: Position(n.position),
            load: n.load_open.then_some(Position(n.load_start)),
            counts: Counts {
                seen: n.seen,
                filtered: n.filtered,
                payload: n.payload,
            },
            links_used: n.links_used,
            fee_ids_used: n.fee_ids_used,
        }
    }
}

// .. and back.
impl From<Progress> for PlainState {
    fn from(p: Progress) -> PlainState
        ensures { result ≡ plain_state p }
    {
        PlainState {
            place: p.place.0,
            position: p.position.0,
            load_start: p.load.unwrap_or_default().0,
            links_used: p.links_used,
            fee_ids_used: p.fee_ids_used,
            seen: p.counts.seen,
            filtered: p.counts.filtered,
            payload: p.counts.payload,
            load_open: p.load.is_some(),
        }
    }
}
