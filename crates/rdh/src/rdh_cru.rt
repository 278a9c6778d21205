// The whole header as the common readout unit (CRU) writes it: 64 bytes.
ghost use Rattle.std.specs.Prelude.{◌≡◌, Some};
ghost use Rattle.rdh.specs.Messages.{too_few_bytes_text};
ghost use Rattle.rdh.specs.PayloadSize.{payload_size};
ghost use Rattle.rdh.specs.Subfields.{cru_id_of, data_format_of, dw_of};

use crate::rdh0::Rdh0;
use crate::rdh1::Rdh1;
use crate::rdh2::Rdh2;
use crate::rdh3::Rdh3;
use std::error::Error;
use std::fmt;

// The length of a header.
pub const RDH_CRU_SIZE_BYTES: usize = 64;

// The same in the width of an offset and of a memory size, of which it is the least.
pub const RDH_SIZE: u16 = RDH_CRU_SIZE_BYTES as u16;

// Fewer bytes than a header has.
#[derive(Clone, Copy, Debug, PartialEq, Eq)]
pub struct TooFewBytes;

impl fmt::Display for TooFewBytes {
    ghost output = { λ _. Some too_few_bytes_text };

    fn fmt<W: fmt::Write>(&self, f: &mut fmt::Formatter<W>) -> fmt::Result {
        write!(f, "fewer than {RDH_CRU_SIZE_BYTES} bytes")
    }
}

impl Error for TooFewBytes {}

// The number of the common readout unit, 12 bits, and of its data wrapper (dw), 4 bits above it.
#[derive(Clone, Copy, Debug, PartialEq, Eq)]
pub struct CruidDw(pub u16);

// The data format, 8 bits, and 56 reserved bits above it.
#[derive(Clone, Copy, Debug, PartialEq, Eq)]
pub struct DataformatReserved(pub u64);

#[derive(Clone, Copy, Debug, PartialEq, Eq)]
pub struct RdhCru {
    pub rdh0: Rdh0,
    pub offset_new_packet: u16,
    pub memory_size: u16,
    pub link_id: u8,
    pub packet_counter: u8,
    pub cruid_dw: CruidDw,
    pub rdh1: Rdh1,
    pub dataformat_reserved0: DataformatReserved,
    pub rdh2: Rdh2,
    pub reserved1: u64,
    pub rdh3: Rdh3,
    pub reserved2: u64,
}

impl RdhCru {
    pub fn cru_id(self) -> u16
        ensures { result ≡ cru_id_of self.cruid_dw.0 }
    {
        self.cruid_dw.0 % 4096
    }

    pub fn dw(self) -> u8
        ensures { result ≡ dw_of self.cruid_dw.0 }
    {
        (self.cruid_dw.0 / 4096) as u8
    }

    pub fn data_format(self) -> u8
        ensures { result ≡ data_format_of self.dataformat_reserved0.0 }
    {
        (self.dataformat_reserved0.0 % 256) as u8
    }

    // The length of the payload behind the header. A memory size below a header's length, which no packet has, has none.
    pub fn payload_size(self) -> u16
        ensures { result ≡ payload_size self }
    {
        self.memory_size.saturating_sub(RDH_SIZE)
    }
}
