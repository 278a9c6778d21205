// What C is answered about headers: structs that C has too.
ghost use Rattle.std.specs.Prelude.{◌≡◌};
ghost use Rattle.serde_rdh.specs.Refusals.{decode_answer, encode_answer};
ghost use Rattle.doors_header_structs.specs.Plain.{refusal_of};
ghost use Rattle.doors_header_structs.specs.Replies.{plain_decoded};

use crate::plain::{NO_REFUSAL, PlainHeader};
use rdh::rdh_cru::RdhCru;
use serde_rdh::TooFewBytes;

const FEWER_THAN_64: u32 = 9;

#[repr(C)]
#[derive(Clone, Copy, Debug, PartialEq, Eq)]
pub struct PlainDecoded {
    pub header: PlainHeader,
    pub refusal: u32,
}

// The fields that share a number with others, and whether the trigger type has the bit of a physics trigger.
#[repr(C)]
#[derive(Clone, Copy, Debug, PartialEq, Eq)]
pub struct PlainHeaderParts {
    pub bc_reserved: u32,
    pub bc: u16,
    pub cru_id: u16,
    pub dw: u8,
    pub data_format: u8,
    pub is_pht_trigger: bool,
}

impl From<Result<RdhCru, TooFewBytes>> for PlainDecoded {
    #[tactic(auto, unfolding(crate::specs::Replies::zero_header, serde_rdh::specs::Layout::header))]
    fn from(decoded: Result<RdhCru, TooFewBytes>) -> PlainDecoded
        ensures { result ≡ plain_decoded (decode_answer decoded) }
    {
        match decoded {
            Ok(rdh) => PlainDecoded {
                header: PlainHeader::from(rdh),
                refusal: NO_REFUSAL,
            },
            Err(TooFewBytes) => PlainDecoded {
                header: PlainHeader::default(),
                refusal: FEWER_THAN_64,
            },
        }
    }
}

pub fn encode_refusal(encoded: Result<(), TooFewBytes>) -> u32
    ensures { result ≡ refusal_of (encode_answer encoded) }
{
    match encoded {
        Ok(()) => NO_REFUSAL,
        Err(TooFewBytes) => FEWER_THAN_64,
    }
}
