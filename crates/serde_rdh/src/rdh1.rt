// The third word, RDH1, from and to bytes 16 to 23.
ghost use Rattle.std.specs.Prelude.{◌≡◌, ◌++◌};
ghost use Rattle.basis.specs.Bytes.{bytes_of};
ghost use Rattle.serde_rdh.specs.Layout.{decoded};

use crate::bytes_at;
use rdh::rdh_cru::RDH_CRU_SIZE_BYTES;
use rdh::rdh1::{BcReserved, Rdh1};
use serde_rdh_numbers::Half;

// The third word of the header in `buf`.
pub(crate) fn from_buf(buf: &[u8; RDH_CRU_SIZE_BYTES]) -> Rdh1
    ensures { result ≡ (decoded buf.now).rdh1 }
{
    Rdh1 {
        bc_reserved0: BcReserved(u32::from_le_bytes(bytes_at(buf, 16))),
        orbit: u32::from_le_bytes(bytes_at(buf, 20)),
    }
}

// The word as one number, its first byte lowest.
pub(crate) fn word(rdh1: Rdh1) -> u64
    ensures { bytes_of 8 result ≡ bytes_of 4 rdh1.bc_reserved0.0 ++ bytes_of 4 rdh1.orbit }
{
    rdh1.bc_reserved0.0.join(rdh1.orbit)
}
