// A list of calls over one recording, made one after the other. What the last of them replies is what the recording's chain says, so that
// the contracts of the calls and the theorem on the chain are held together by a proof.
#![tactic(auto)]

ghost use Rattle.scan_cdp.specs.Scans.{SameScan};
ghost use Rattle.chain_replay_calls.specs.OneCall.{keeps};
ghost use Rattle.chain_replay.specs.Replays.{Replays, calls_of, stand_at};

use chain_replay_calls::{Asked, Called};
pub use lists::replay_lists;
use scan_cdp::Scan;

mod lists;

// The last reply, if a call was made, and how many were.
#[derive(Clone, Copy, Debug, PartialEq, Eq)]
pub struct Replayed {
    pub last: Option<Called>,
    pub made: usize,
}

// Makes the calls, up to the first reply that ends the chain. A call is a load or an examination, on the window that has so many bytes of the
// recording from a first place on, or as many as there are; the window is the last if that is asked for and it reaches the recording's end. As
// in a call, parts of the recording are said by their bytes.
#[tactic(auto, using(crate::proofs::ReplaysLaws::none_made, crate::proofs::ReplaysLaws::same_on))]
pub fn replay(scan: &mut Scan, recording: &[u8], calls: &[Asked]) -> Replayed
    ensures replays { Replays recording.now scan.old.set (keeps scan.old) (calls_of recording.now calls.now)
        (stand_at recording.now result.last scan.new) result.made }
    ensures same { SameScan scan.old scan.new }
{
    let mut last = None;
    let mut made = 0;
    for &asked in calls {
        let called = chain_replay_calls::call(scan, recording, asked);
        last = Some(called);
        made += 1;
        if called.ends {
            return Replayed { last, made };
        }
    }
    Replayed { last, made }
}
