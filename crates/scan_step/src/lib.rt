// One examination, on the scan and what is lent to it. Whether a link is listed twice is not asked here: a load asks it once.
#![tactic(auto)]

ghost use Rattle.std.specs.Prelude.{◌≡◌, ◌&&◌, length};
ghost use Rattle.scan_cdp.specs.Scans.{SameScan, state_of};
ghost use Rattle.scan_cdp.specs.Outcomes.{header_fee_id};
ghost use Rattle.scan_cdp.specs.Steps.{is_first, numbers_unusable};
ghost use Rattle.scan_cdp.specs.Windows.{examined_unless};
ghost use Rattle.scan_replies.specs.Examinations.{examination_of};
ghost use Rattle.stats.specs.Lists.{full};
ghost use Rattle.scan_step.specs.Headers.{HeaderHere, RepliesFor, Stepped, judged_in, listed};

use crate::triggers::count_trigger;
use outcome::Judged;
use rdh::rdh_cru::{RDH_CRU_SIZE_BYTES, RdhCru};
use scan_cdp::{BytePlace, Counts, LoadCdp, Marks, Position, Progress, Refusal, Scan, Window};
use scan_lists::list_if_due;
use scan_replies::{Examination, WANTED_HEADER, lacking};
use scan_window::{numbers_unusable, outside, start_in};

mod triggers;

// Examines the header at the byte place, with refusal 6 by the numbers alone. The caller has asked whether a link is listed twice; a step leaves
// that as it was.
pub fn take_step(scan: &mut Scan, window: Window) -> Examination
    ensures examined { examination_of result scan.new
        ≡ examined_unless (numbers_unusable scan.old.progress (length scan.old.links.now) (length scan.old.fee_ids.now))
        scan.old.set (state_of scan.old) scan.old.fee_ids.now window.entry.bytes.now window.entry.first.0 window.entry.last }
    ensures same { SameScan scan.old scan.new }
{
    if numbers_unusable(scan.progress, scan.links.len(), scan.fee_ids.len()) {
        return Examination::unmarked(Err(Refusal::Unusable));
    }
    if outside(scan.progress.place, window.first, window.bytes.len()) {
        return Examination::unmarked(Err(Refusal::Unusable));
    }
    let distance = scan.progress.place.0.saturating_sub(window.first.0);
    let start = start_in(distance, window.bytes.len());
    let rest = &window.bytes[start..];
    let Ok(rdh) = serde_rdh::from_buf(rest) else {
        return lacking(
            scan,
            window.first.0 + window.bytes.len() as u64,
            window.last,
        );
    };
    let left = rest.len();
    Header { rdh, start, left }.step(scan, window.last)
}

// A header that is looked at: its 64 bytes start at `start` in the window, with `left` bytes from there on.
#[derive(Clone, Copy)]
struct Header {
    rdh: RdhCru,
    start: usize,
    left: usize,
}

impl Header {
    // Examines the header. What becomes of it is decided first, so that a want leaves no count and no place of the lists written.
    fn step(&self, scan: &mut Scan, last: bool) -> Examination
        requires { HeaderHere scan.old.progress self.now }
        ensures examined { RepliesFor scan.old self.now last (examination_of result scan.new) }
        ensures same { SameScan scan.old scan.new }
    {
        let judged = self.judge(scan);
        if !last & outcome_payload::is_cut(judged, self.left) {
            let size = WANTED_HEADER + self.rdh.payload_size() as u64;
            return Examination::unmarked(Ok(Some(LoadCdp::Want(scan.progress.place, size))));
        }
        self.list(scan, judged.set.stats & judged.is_counted());
        self.pass(scan, judged)
    }

    // What becomes of the header.
    #[tactic(auto, unfolding(scan_cdp::specs::Steps::outcome_in))]
    fn judge(&self, scan: &Scan) -> Judged
        ensures { result ≡ judged_in scan.now self.now.rdh }
    {
        let Scan { set, progress, .. } = *scan;
        let first = progress.load.is_none();
        let outcome = outcome::outcome_of(set, first, self.lacks_place(scan), self.rdh);
        Judged {
            set,
            rdh: self.rdh,
            first,
            outcome,
        }
    }

    // Whether its FEE id is to be listed, is new, and has no place.
    #[tactic(auto, unfolding(stats::specs::Lists::full))]
    fn lacks_place(&self, scan: &Scan) -> bool
        ensures { result ≡ (scan.now.set.stats && full (header_fee_id self.now.rdh) scan.now.progress.fee_ids_used scan.now.fee_ids.now) }
    {
        let fee_id = self.rdh.rdh0.fee_id.0;
        scan.set.stats && stats::is_full(scan.fee_ids, scan.progress.fee_ids_used, fee_id)
    }

    // Lists the header's link and FEE id and counts its trigger word, if that is due.
    fn list(&self, scan: &mut Scan, due: bool)
        ensures { scan.new ≡ listed due self.now.rdh scan.old }
    {
        let links_used = scan.progress.links_used;
        scan.progress.links_used = list_if_due(due, scan.links, links_used, self.rdh.link_id);
        let fee_ids_used = scan.progress.fee_ids_used;
        scan.progress.fee_ids_used = list_if_due(
            due,
            scan.fee_ids,
            fee_ids_used,
            self.rdh.rdh0.fee_id.0,
        );
        count_trigger(due, scan.triggers, self.rdh.rdh2.trigger_type);
    }

    // The reply for the header, which has an outcome, with the scan moved on behind it.
    fn pass(&self, scan: &mut Scan, judged: Judged) -> Examination
        requires here { HeaderHere scan.old.progress self.now }
        requires first { judged.first ≡ is_first scan.old.progress.load }
        ensures { Stepped scan.old judged self.now result scan.new }
    {
        let Progress {
            place,
            position,
            load,
            counts,
            ..
        } = scan.progress;
        let payload = outcome_payload::part(
            self.start + RDH_CRU_SIZE_BYTES,
            outcome_payload::read_size(judged, self.left),
        );
        let tally = outcome_counts::tallied(judged, counts);
        let moved = outcome_moves::place_moved(judged, self.left);
        scan.progress.place = BytePlace(place.0 + moved as u64);
        scan.progress.position = Position(position.0 + outcome_moves::position_moved(judged));
        scan.progress.load = outcome_moves::load_after(judged.outcome, load, position);
        scan.progress.counts = Counts {
            seen: tally.seen.value,
            filtered: tally.filtered.value,
            payload: tally.payload.value,
        };
        let start = outcome_moves::start_of(load, position);
        Examination {
            answer: outcome_effects::answer(judged, payload, start, position),
            marks: Marks {
                initial: outcome_effects::initial_collect_stats(judged, position),
                seen_carry: tally.seen.carry,
                filtered_carry: tally.filtered.carry,
                payload_carry: tally.payload.carry,
                payload_cut: outcome_payload::is_cut(judged, self.left),
            },
        }
    }
}
