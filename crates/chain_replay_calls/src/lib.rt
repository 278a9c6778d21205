// One call on a window of a recording: the part that is asked for is lent to the load or the examination, and what that replies is told, with
// whether it ends the recording's chain.
#![tactic(auto)]

ghost use Rattle.std.specs.Prelude.{◌&&◌, ◌≡◌, ◌+◌, leb, Err};
ghost use Rattle.scan_cdp.specs.Answers.{load_answer};
ghost use Rattle.scan_cdp.specs.Scans.{SameScan, state_of};
ghost use Rattle.scan_cdp.specs.Steps.{unusable};
ghost use Rattle.scan_cdp.specs.Windows.{bytes_at};
ghost use Rattle.chain.specs.Calls.{ends_by, reply_to};
ghost use Rattle.chain_replay_calls.specs.OneCall.{call_at, call_on, ends_told, keeps, lent_as, stand_by, stand_of, told_on};

use scan_cdp::{BytePlace, LoadCdp, LoadMarks, Marks, Part, Refusal, Scan, Window};

// Which call is made on a window.
#[derive(Clone, Copy, Debug, PartialEq, Eq)]
pub enum CallKind {
    Examination,
    Load,
}

// One call as it is asked for.
#[derive(Clone, Copy, Debug, PartialEq, Eq)]
pub struct Asked {
    pub kind: CallKind,
    pub first: u64,
    pub size: u64,
    pub last: bool,
}

// What a call answered, with its marks.
#[derive(Clone, Copy, Debug, PartialEq, Eq)]
pub enum Told {
    Examination(Result<Option<LoadCdp>, Refusal>, Marks),
    Load(Result<LoadCdp, Refusal>, LoadMarks),
}

// What a call replied, the part of the recording that was its window, and whether the reply ends the chain. What it leaves is in the scan.
#[derive(Clone, Copy, Debug, PartialEq, Eq)]
pub struct Called {
    pub told: Told,
    pub window: Part,
    pub ends: bool,
}

// One call, on the window that it asks for. The contract says the bytes of the window and of a payload; by which start and length a `Part`
// names them is left free.
pub fn call(scan: &mut Scan, recording: &[u8], asked: Asked) -> Called
    ensures stands { stand_of recording.now result scan.new
        ≡ stand_by (reply_to scan.old.set (keeps scan.old) (call_at recording.now asked)) }
    ensures same { SameScan scan.old scan.new }
{
    let part = Part {
        start: asked.first as usize,
        length: asked.size as usize,
    };
    let bytes = scan_window::payload(recording, part);
    let window = Window {
        bytes,
        first: BytePlace(asked.first),
        last: asked.reaches(bytes.len(), recording.len()),
    };
    let told = make(scan, window, asked.kind);
    let six = unusable(scan);
    Called {
        told,
        window: part,
        ends: told.ends_chain(six),
    }
}

// The bytes of a packet's payload: the part of its call's window, which is a part of the recording.
pub fn payload(recording: &[u8], window: Part, payload: Part) -> &[u8]
    ensures { result.now ≡ bytes_at (bytes_at recording.now window) payload }
{
    let lent = scan_window::payload(recording, window);
    scan_window::payload(lent, payload)
}

impl Asked {
    // Whether a window of so many bytes is the last: it is asked for, and the window reaches the end; with no sum that could wrap.
    fn reaches(self, size: usize, whole: usize) -> bool
        ensures { result ≡ (self.last && leb whole (self.first + size)) }
    {
        self.last & (whole.saturating_sub(size) as u64 <= self.first)
    }
}

// The load or the examination on a window.
#[tactic(auto, unfolding(chain::specs::Calls::reply_to))]
fn make(scan: &mut Scan, window: Window, kind: CallKind) -> Told
    ensures tells { told_on window.entry.bytes.now (keeps scan.new) result
        ≡ reply_to scan.old.set (keeps scan.old)
        (call_on kind (lent_as window.entry.bytes.now window.entry.first.0 window.entry.last)) }
    ensures same { SameScan scan.old scan.new }
{
    match kind {
        CallKind::Examination => {
            let examination = input_scanner::examine(scan, window);
            Told::Examination(examination.answer, examination.marks)
        }
        CallKind::Load => {
            let load = input_scanner::load_cdp(scan, window);
            Told::Load(load.answer, load.marks)
        }
    }
}

impl Told {
    // Whether it ends the chain. `six` says whether state and list alone meet refusal 6.
    fn ends_chain(self, six: bool) -> bool
        ensures { result ≡ ends_told self six }
    {
        match self {
            Told::Examination(Err(why), _) => ends(why, six),
            Told::Load(Err(why), _) => ends(why, six),
            _ => false,
        }
    }
}

// A refusal ends it, but a 6 by the window alone does not.
fn ends(why: Refusal, six: bool) -> bool
    ensures { result ≡ ends_by (load_answer (Err why)) six }
{
    match why {
        Refusal::Unusable => six,
        _ => true,
    }
}

// Refusal 6 by state and list alone.
#[tactic(auto, unfolding(scan_cdp::specs::Steps::unusable))]
fn unusable(scan: &Scan) -> bool
    ensures { result ≡ unusable (state_of scan.now) scan.now.fee_ids.now }
{
    scan_window::numbers_unusable(scan.progress, scan.links.len(), scan.fee_ids.len())
        | stats::has_link_twice(scan.links, scan.progress.links_used)
}
