// What an examination replies, and the replies that find no header: one that marks nothing, a want for a header, and the end.
#![tactic(auto)]

ghost use Rattle.std.specs.Prelude.{◌≡◌};
ghost use Rattle.scan_cdp.specs.Scans.{SameScan};
ghost use Rattle.scan_replies.specs.Examinations.{examination_of, lacking, unmarked};

use rdh::rdh_cru::RDH_CRU_SIZE_BYTES;
use scan_cdp::{BytePlace, LoadCdp, Marks, Refusal, Scan};

// The bytes that a want for a header asks for.
pub const WANTED_HEADER: u64 = RDH_CRU_SIZE_BYTES as u64;

// What the examination of one header replies. What it leaves is in the scan.
#[derive(Clone, Copy, Debug, PartialEq, Eq)]
pub struct Examination {
    pub answer: Result<Option<LoadCdp>, Refusal>,
    pub marks: Marks,
}

impl Examination {
    // A reply that marks nothing.
    pub fn unmarked(answer: Result<Option<LoadCdp>, Refusal>) -> Examination
        ensures { result ≡ unmarked answer }
    {
        Examination {
            answer,
            marks: Marks::default(),
        }
    }
}

// There are fewer than 64 bytes at the byte place: a want, or refusal 1, which moves the place to the end and closes the load.
#[tactic(auto, unfolding(scan_cdp::specs::Steps::ended))]
pub fn lacking(scan: &mut Scan, end: u64, last: bool) -> Examination
    ensures examined { examination_of result scan.new ≡ lacking scan.old end last }
    ensures same { SameScan scan.old scan.new }
{
    if !last {
        let want = LoadCdp::Want(scan.progress.place, WANTED_HEADER);
        return Examination::unmarked(Ok(Some(want)));
    }
    scan.progress.place = BytePlace(scan.progress.place.0.max(end));
    scan.progress.load = None;
    Examination::unmarked(Err(Refusal::End))
}
