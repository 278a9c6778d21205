// The reply of a call as structs that C has too.
#![tactic(auto)]

ghost use Rattle.std.specs.Prelude.{◌≡◌};
ghost use Rattle.basis.specs.Refusals.{gives};
ghost use Rattle.scan_cdp.specs.Answers.{examined_answer, found_by};
ghost use Rattle.doors_scan_reply.specs.Replies.{plain_answer, plain_marks, refusal_answer, refused_with, reply_of};

use doors_scan_structs::PlainState;
use scan_cdp::{LoadCdp, LoadMarks, Progress, Refusal};

// The kinds of an answer, by C's numbers. Only an examination passes a header. Only a listing meets a full buffer: one that may have no room
// for the next packet's lines.
#[derive(Clone, Copy, Debug, PartialEq, Eq)]
pub enum Kind {
    Passed = 0,
    Packet = 1,
    Want = 2,
    Refused = 3,
    Full = 4,
}

// What a call found: its kind, and what that kind has; all else is 0.
#[repr(C)]
#[derive(Clone, Copy, Debug, PartialEq, Eq, Default)]
pub struct PlainAnswer {
    pub position: u64,
    pub own: u64,
    pub want_place: u64,
    pub want_size: u64,
    pub payload_start: usize,
    pub payload_length: usize,
    pub kind: u32,
    pub refusal: u32,
    pub distance: i32,
}

// What is reported of the headers that a call examined. Trigger type, data format and system id are 0 where there is no initial mark.
#[repr(C)]
#[derive(Clone, Copy, Debug, PartialEq, Eq, Default)]
pub struct PlainMarks {
    pub seen_carries: u64,
    pub trigger_type: u32,
    pub data_format: u8,
    pub system_id: u8,
    pub initial: bool,
    pub filtered_carry: bool,
    pub payload_carry: bool,
    pub payload_cut: bool,
}

// What an examination or a load replies, but for the lists and the header's bytes, which are lent.
#[repr(C)]
#[derive(Clone, Copy, Debug, PartialEq, Eq)]
pub struct PlainReply {
    pub answer: PlainAnswer,
    pub marks: PlainMarks,
    pub state: PlainState,
}

pub fn reply_of(
    answer: Result<Option<LoadCdp>, Refusal>,
    marks: LoadMarks,
    progress: Progress,
) -> PlainReply
    ensures { result ≡ reply_of (examined_answer answer) marks progress }
{
    PlainReply {
        answer: PlainAnswer::from(answer),
        marks: PlainMarks::from(marks),
        state: PlainState::from(progress),
    }
}

// What an examination answers, or what a load does, which passes no header.
impl From<Result<Option<LoadCdp>, Refusal>> for PlainAnswer {
    fn from(answer: Result<Option<LoadCdp>, Refusal>) -> PlainAnswer
        ensures { result ≡ plain_answer (examined_answer answer) }
    {
        match answer {
            Ok(None) => PlainAnswer {
                kind: Kind::Passed as u32,
                ..PlainAnswer::default()
            },
            Ok(Some(found)) => PlainAnswer::from(found),
            Err(why) => PlainAnswer::from(why),
        }
    }
}

// All that is found but a packet's header.
impl From<LoadCdp> for PlainAnswer {
    fn from(found: LoadCdp) -> PlainAnswer
        ensures { result ≡ plain_answer (gives (found_by found)) }
    {
        match found {
            LoadCdp::Packet(packet) => PlainAnswer {
                kind: Kind::Packet as u32,
                position: packet.position.0,
                own: packet.own.0,
                payload_start: packet.payload.start,
                payload_length: packet.payload.length,
                ..PlainAnswer::default()
            },
            LoadCdp::Want(place, size) => PlainAnswer {
                kind: Kind::Want as u32,
                want_place: place.0,
                want_size: size,
                ..PlainAnswer::default()
            },
        }
    }
}

impl From<Refusal> for PlainAnswer {
    fn from(why: Refusal) -> PlainAnswer
        ensures { result ≡ refusal_answer why }
    {
        let (distance, position) = match why {
            Refusal::OffsetToNext(distance, position) => (distance, position.0),
            _ => (0, 0),
        };
        PlainAnswer::refused(u32::from(why.number()), distance, position)
    }
}

impl PlainAnswer {
    // A refusal by its number, with distance and position, which only 2 has.
    pub fn refused(refusal: u32, distance: i32, position: u64) -> PlainAnswer
        ensures { result ≡ refused_with refusal distance position }
    {
        PlainAnswer {
            kind: Kind::Refused as u32,
            refusal,
            distance,
            position,
            ..PlainAnswer::default()
        }
    }
}

impl From<LoadMarks> for PlainMarks {
    fn from(marks: LoadMarks) -> PlainMarks
        ensures { result ≡ plain_marks marks }
    {
        let counted = PlainMarks {
            seen_carries: marks.seen_carries,
            filtered_carry: marks.filtered_carry,
            payload_carry: marks.payload_carry,
            payload_cut: marks.payload_cut,
            ..PlainMarks::default()
        };
        match marks.initial {
            None => counted,
            Some(initial) => PlainMarks {
                initial: true,
                trigger_type: initial.trigger_type,
                data_format: initial.data_format,
                system_id: initial.system_id,
                ..counted
            },
        }
    }
}
