// The scan of a recording through a window: one examination, and the load above it.
#![tactic(auto)]

ghost use Rattle.std.specs.Prelude.{◌≡◌, ◌≤◌, take};
ghost use Rattle.stats.specs.Lists.{twice};
ghost use Rattle.scan_cdp.specs.Loads.{loaded, together};
ghost use Rattle.scan_cdp.specs.Scans.{SameScan, state_of};
ghost use Rattle.scan_cdp.specs.Steps.{limit};
ghost use Rattle.scan_cdp.specs.Windows.{examined};
ghost use Rattle.scan_replies.specs.Examinations.{examination_of};
ghost use Rattle.input_scanner.specs.Replies.{load_of};

use scan_cdp::{LoadCdp, LoadMarks, Marks, Refusal, Scan, Window};
use scan_replies::Examination;
use scan_step::take_step;

// What a load replies. What it leaves is in the scan.
#[derive(Clone, Copy, Debug, PartialEq, Eq)]
pub struct Load {
    pub answer: Result<LoadCdp, Refusal>,
    pub marks: LoadMarks,
}

// Examines the header at the byte place.
pub fn examine(scan: &mut Scan, window: Window) -> Examination
    ensures examined { examination_of result scan.new
        ≡ examined scan.old.set (state_of scan.old) scan.old.fee_ids.now window.entry.bytes.now window.entry.first.0
        window.entry.last }
    ensures same { SameScan scan.old scan.new }
{
    if lists_link_twice(scan) {
        return Examination::unmarked(Err(Refusal::Unusable));
    }
    take_step(scan, window)
}

// Loads the next packet: examines headers up to the first that is not passed.
pub fn load_cdp(scan: &mut Scan, window: Window) -> Load
    ensures loaded { load_of result scan.new
        ≡ loaded scan.old.set (state_of scan.old) scan.old.fee_ids.now window.entry.bytes.now window.entry.first.0
        window.entry.last }
    ensures same { SameScan scan.old scan.new }
{
    let mut marks = LoadMarks::default();
    if lists_link_twice(scan) {
        return Load {
            answer: Err(Refusal::Unusable),
            marks,
        };
    }
    let answer = loop {
        let next = take_step(scan, window);
        marks = together(marks, next.marks);
        if let Some(answer) = next.answer.transpose() {
            break answer;
        }
    };
    Load { answer, marks }
}

// Refusal 6 by a link that is listed twice.
fn lists_link_twice(scan: &Scan) -> bool
    ensures { result ≡ twice (take scan.now.progress.links_used scan.now.links.now) }
{
    stats::has_link_twice(scan.links, scan.progress.links_used)
}

// The marks of the examinations so far with those of the next one.
#[tactic(auto, unfolding(scan_cdp::specs::Loads::together))]
fn together(marks: LoadMarks, next: Marks) -> LoadMarks
    requires { marks.seen_carries ≤ limit }
    ensures { result ≡ together marks next }
{
    LoadMarks {
        initial: marks.initial.or(next.initial),
        seen_carries: marks.seen_carries + u64::from(next.seen_carry),
        filtered_carry: marks.filtered_carry | next.filtered_carry,
        payload_carry: marks.payload_carry | next.payload_carry,
        payload_cut: marks.payload_cut | next.payload_cut,
    }
}
