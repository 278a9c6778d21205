// The seventh word, RDH3, from and to bytes 48 to 55.
ghost use Rattle.std.specs.Prelude.{◌≡◌, ◌++◌};
ghost use Rattle.basis.specs.Bytes.{bytes_of};
ghost use Rattle.serde_rdh.specs.Layout.{decoded};

use crate::bytes_at;
use rdh::rdh_cru::RDH_CRU_SIZE_BYTES;
use rdh::rdh3::Rdh3;
use serde_rdh_numbers::Half;

// The seventh word of the header in `buf`.
pub(crate) fn from_buf(buf: &[u8; RDH_CRU_SIZE_BYTES]) -> Rdh3
    ensures { result ≡ (decoded buf.now).rdh3 }
{
    Rdh3 {
        detector_field: u32::from_le_bytes(bytes_at(buf, 48)),
        par_bit: u16::from_le_bytes(bytes_at(buf, 52)),
        reserved0: u16::from_le_bytes(bytes_at(buf, 54)),
    }
}

// The word as one number, its first byte lowest.
pub(crate) fn word(rdh3: Rdh3) -> u64
    ensures { bytes_of 8 result
        ≡ bytes_of 4 rdh3.detector_field ++ (bytes_of 2 rdh3.par_bit ++ bytes_of 2 rdh3.reserved0) }
{
    rdh3.detector_field.join(rdh3.par_bit.join(rdh3.reserved0))
}
