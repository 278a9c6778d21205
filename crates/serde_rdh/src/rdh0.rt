// The first word, RDH0, from and to bytes 0 to 7.
ghost use Rattle.std.specs.Prelude.{◌≡◌, ◌++◌};
ghost use Rattle.basis.specs.Bytes.{bytes_of};
ghost use Rattle.serde_rdh.specs.Layout.{decoded};

use crate::bytes_at;
use rdh::rdh_cru::RDH_CRU_SIZE_BYTES;
use rdh::rdh0::{FeeId, Rdh0};
use serde_rdh_numbers::Half;

// The first word of the header in `buf`.
pub(crate) fn from_buf(buf: &[u8; RDH_CRU_SIZE_BYTES]) -> Rdh0
    ensures { result ≡ (decoded buf.now).rdh0 }
{
    Rdh0 {
        header_id: buf[0],
        header_size: buf[1],
        fee_id: FeeId(u16::from_le_bytes(bytes_at(buf, 2))),
        priority_bit: buf[4],
        system_id: buf[5],
        reserved0: u16::from_le_bytes(bytes_at(buf, 6)),
    }
}

// The word as one number, its first byte lowest.
pub(crate) fn word(rdh0: Rdh0) -> u64
    ensures { bytes_of 8 result
        ≡ bytes_of 1 rdh0.header_id ++ bytes_of 1 rdh0.header_size ++ bytes_of 2 rdh0.fee_id.0
        ++ (bytes_of 1 rdh0.priority_bit ++ bytes_of 1 rdh0.system_id ++ bytes_of 2 rdh0.reserved0) }
{
    let first = rdh0.header_id.join(rdh0.header_size).join(rdh0.fee_id.0);
    let second = rdh0.priority_bit.join(rdh0.system_id).join(rdh0.reserved0);
    first.join(second)
}
