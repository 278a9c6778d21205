// The bytes of a packet's header, for whoever called from C.
ghost use Rattle.std.specs.Prelude.{◌≡◌};
ghost use Rattle.scan_cdp.specs.Answers.{examined_answer};
ghost use Rattle.doors_scan_reply.specs.Replies.{header_left};

use rdh::rdh_cru::RDH_CRU_SIZE_BYTES;
use scan_cdp::{LoadCdp, Refusal};

// The header of a packet; with any other answer the bytes stay.
pub(crate) fn put_header(
    answer: Result<Option<LoadCdp>, Refusal>,
    header: &mut [u8; RDH_CRU_SIZE_BYTES],
)
    ensures { header.new ≡ header_left (examined_answer answer) header.old }
{
    if let Ok(Some(LoadCdp::Packet(packet))) = answer {
        let _ = serde_rdh::to_byte_slice(packet.rdh, header);
    }
}
