// What a scan is asked for, keeps and answers: the layer below the reading of a window.
#![tactic(auto)]

ghost use Rattle.std.specs.Prelude.{◌≡◌, Some};
ghost use Rattle.scan_cdp.specs.Answers.{number_of};
ghost use Rattle.scan_cdp.specs.Loads.{no_load_marks, together};
ghost use Rattle.scan_cdp.specs.Messages.{refusal_text};
ghost use Rattle.scan_cdp.specs.Steps.{new_state};

use filter::FilterOpt;
use rdh::rdh_cru::RdhCru;
use stats::Count;
use std::error::Error;
use std::fmt;
use trigger_stats::COUNTERS;

// A byte place in the recording, which the reading goes by (W2, F3).
#[derive(Clone, Copy, Debug, Default, PartialEq, Eq)]
pub struct BytePlace(pub u64);

// 2^60: no place, position or window end is above it (R6).
pub const LIMIT: u64 = 1_152_921_504_606_846_976;

// A reported position, which is printed and never read at: offsets alone move it (W2, F3).
#[derive(Clone, Copy, Debug, Default, PartialEq, Eq)]
pub struct Position(pub u64);

#[derive(Clone, Copy, Debug, PartialEq, Eq)]
pub struct Settings {
    pub filter: FilterOpt,
    pub skip_payload: bool,
    pub stats: bool,
}

// The three counts of a scan.
#[derive(Clone, Copy, Debug, Default, PartialEq, Eq)]
pub struct Counts {
    pub seen: u32,
    pub filtered: u32,
    pub payload: u32,
}

// How far a scan has come: all of its state but the links and the trigger counts. `load` is the position that the open load started from: only
// a header that was passed leaves one open (S7). The used numbers are those of the links and of the lent FEE ids.
#[derive(Clone, Copy, Debug, Default, PartialEq, Eq)]
pub struct Progress {
    pub place: BytePlace,
    pub position: Position,
    pub load: Option<Position>,
    pub counts: Counts,
    pub links_used: usize,
    pub fee_ids_used: usize,
}

// The state that a scan keeps between two calls (W1). The FEE ids are in a list that is lent.
#[derive(Clone, Copy, Debug, PartialEq, Eq)]
pub struct State {
    pub progress: Progress,
    pub links: [u8; 256],
    pub triggers: [u32; COUNTERS],
}

impl State {
    // A scan that has not begun: everything is at 0.
    pub fn new() -> State
        ensures { result ≡ new_state }
    {
        State {
            progress: Progress::default(),
            links: [0; 256],
            triggers: [0; COUNTERS],
        }
    }
}

// The mark of a load's first header at position 0, with what is assumed to be the same for the rest of the recording.
#[derive(Clone, Copy, Debug, PartialEq, Eq)]
pub struct Initial {
    pub trigger_type: u32,
    pub data_format: u8,
    pub system_id: u8,
}

// What is reported of one header (W8): the initial mark, counts that were full, and a payload that the recording's end cut (E100).
#[derive(Clone, Copy, Debug, Default, PartialEq, Eq)]
pub struct Marks {
    pub initial: Option<Initial>,
    pub seen_carry: bool,
    pub filtered_carry: bool,
    pub payload_carry: bool,
    pub payload_cut: bool,
}

// What is reported of all headers that a load examined (L2): the marks of each together, with the carries of seen as their number.
#[derive(Clone, Copy, Debug, Default, PartialEq, Eq)]
pub struct LoadMarks {
    pub initial: Option<Initial>,
    pub seen_carries: u64,
    pub filtered_carry: bool,
    pub payload_carry: bool,
    pub payload_cut: bool,
}

// The marks of an examination, as those of a load that makes no other.
impl From<Marks> for LoadMarks {
    #[tactic(auto, unfolding(crate::specs::Loads::together))]
    fn from(marks: Marks) -> LoadMarks
        ensures { result ≡ together no_load_marks marks }
    {
        LoadMarks {
            initial: marks.initial,
            seen_carries: u64::from(marks.seen_carry),
            filtered_carry: marks.filtered_carry,
            payload_carry: marks.payload_carry,
            payload_cut: marks.payload_cut,
        }
    }
}

// A part of the window (W9).
#[derive(Clone, Copy, Debug, PartialEq, Eq)]
pub struct Part {
    pub start: usize,
    pub length: usize,
}

// A packet: its header, where its payload is in the window, the position at which its load started, and its own, at which its header stands.
#[derive(Clone, Copy, Debug, PartialEq, Eq)]
pub struct Packet {
    pub rdh: RdhCru,
    pub payload: Part,
    pub position: Position,
    pub own: Position,
}

// Refusals 1 to 4, and 6: why there is no 5, R5 says.
#[derive(Clone, Copy, Debug, PartialEq, Eq)]
pub enum Refusal {
    End,
    OffsetToNext(i32, Position), // the offset less 64, and the position of the header
    MemorySize,
    FeeIdsFull,
    Unusable,
}

impl Refusal {
    // Its number, by which it is told and printed.
    pub fn number(self) -> u8
        ensures { result ≡ number_of self }
    {
        match self {
            Refusal::End => 1,
            Refusal::OffsetToNext(_, _) => 2,
            Refusal::MemorySize => 3,
            Refusal::FeeIdsFull => 4,
            Refusal::Unusable => 6,
        }
    }
}

impl fmt::Display for Refusal {
    ghost output = { λ why. Some (refusal_text why) };

    fn fmt<W: fmt::Write>(&self, f: &mut fmt::Formatter<W>) -> fmt::Result {
        match self {
            Refusal::End => write!(f, "the recording ends before the next header"),
            Refusal::OffsetToNext(_, _) => write!(
                f,
                "the offset to the next header is outside 64 to 10064"
            ),
            Refusal::MemorySize => write!(f, "the memory size is below 64"),
            Refusal::FeeIdsFull => write!(f, "the list of FEE ids is full"),
            Refusal::Unusable => write!(
                f,
                "no scan leaves such a state, or the window does not fit it"
            ),
        }
    }
}

impl Error for Refusal {}

// What a load answers, unless it is refused: a packet, or a want for so many bytes from a place on. Where the examination of one header answers
// none, the header was passed.
#[derive(Clone, Copy, Debug, PartialEq, Eq)]
pub enum LoadCdp {
    Packet(Packet),
    Want(BytePlace, u64),
}

// A header is refused with 4, 2 or 3, is passed, or is handed out.
#[derive(Clone, Copy, Debug, PartialEq, Eq)]
pub enum Outcome {
    FeeIdsFull,
    BadOffset,
    MemorySize,
    Passed,
    HandedOut,
}

// The three counts after a header, each with whether it was full and started again.
#[derive(Clone, Copy, Debug, PartialEq, Eq)]
pub struct Tally {
    pub seen: Count,
    pub filtered: Count,
    pub payload: Count,
}

// A window on the recording: its bytes from the place `first` on. The recording ends with the `last` one.
#[derive(Clone, Copy, Debug, PartialEq, Eq)]
pub struct Window<'a> {
    pub bytes: &'a [u8],
    pub first: BytePlace,
    pub last: bool,
}

// A scan while calls go on: what it is asked for, how far it has come, and the links, trigger counts and FEE ids where they are lent.
#[derive(Drop)]
pub struct Scan<'a> {
    pub set: Settings,
    pub progress: Progress,
    pub links: &'a mut [u8],
    pub triggers: &'a mut [u32; COUNTERS],
    pub fee_ids: &'a mut [u16],
}
