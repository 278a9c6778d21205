// A header and the reply of a text as structs that C has too. Every value of a plain header is a header's, and the other way round.
ghost use Rattle.std.specs.Prelude.{◌≡◌};
ghost use Rattle.text.specs.Written.{answer};
ghost use Rattle.doors_header_structs.specs.Plain.{header_of, plain_header, plain_written};

use rdh::rdh_cru::{CruidDw, DataformatReserved, RdhCru};
use rdh::rdh0::{FeeId, Rdh0};
use rdh::rdh1::{BcReserved, Rdh1};
use rdh::rdh2::Rdh2;
use rdh::rdh3::Rdh3;
use text::TooShort;

// The fields of a header in the order of its bytes.
#[repr(C)]
#[derive(Clone, Copy, Debug, PartialEq, Eq, Default)]
pub struct PlainHeader {
    pub header_id: u8,
    pub header_size: u8,
    pub fee_id: u16,
    pub priority_bit: u8,
    pub system_id: u8,
    pub rdh0_reserved0: u16,
    pub offset_new_packet: u16,
    pub memory_size: u16,
    pub link_id: u8,
    pub packet_counter: u8,
    pub cruid_dw: u16,
    pub bc_reserved0: u32,
    pub orbit: u32,
    pub dataformat_reserved0: u64,
    pub trigger_type: u32,
    pub pages_counter: u16,
    pub stop_bit: u8,
    pub rdh2_reserved0: u8,
    pub reserved1: u64,
    pub detector_field: u32,
    pub par_bit: u16,
    pub rdh3_reserved0: u16,
    pub reserved2: u64,
}

// How many bytes were written, with refusal 0, or how many are needed, with refusal 7.
#[repr(C)]
#[derive(Clone, Copy, Debug, PartialEq, Eq)]
pub struct PlainText {
    pub length: usize,
    pub refusal: u32,
}

// What C calls a refusal: its number, and 0 for none.
pub const NO_REFUSAL: u32 = 0;

pub const BUFFER_TOO_SHORT: u32 = 7;

impl From<PlainHeader> for RdhCru {
    fn from(n: PlainHeader) -> RdhCru
        ensures { result ≡ header_of n }
    {
        RdhCru {
            rdh0: Rdh0 {
                header_id: n.header_id,
                header_size: n.header_size,
                fee_id: FeeId(n.fee_id),
                priority_bit: n.priority_bit,
                system_id: n.system_id,
                reserved0: n.rdh0_reserved0,
            },
            offset_new_packet: n.offset_new_packet,
            memory_size: n.memory_size,
            link_id: n.link_id,
            packet_counter: n.packet_counter,
            cruid_dw: CruidDw(n.cruid_dw),
            rdh1: Rdh1 {
                bc_reserved0: BcReserved(n.bc_reserved0),
                orbit: n.orbit,
            },
            dataformat_reserved0: DataformatReserved(n.dataformat_reserved0),
            rdh2: Rdh2 {
                trigger_type: n.trigger_type,
                pages_counter: n.pages_counter,
                stop_bit: n.stop_bit,
                reserved0: n.rdh2_reserved0,
            },
            reserved1: n.reserved1,
            rdh3: Rdh3 {
                detector_field: n.detector_field,
                par_bit: n.par_bit,
                reserved0: n.rdh3_reserved0,
            },
            reserved2: n.reserved2,
        }
    }
}

impl From<RdhCru> for PlainHeader {
    fn from(h: RdhCru) -> PlainHeader
        ensures { result ≡ plain_header h }
    {
        PlainHeader {
            header_id: h.rdh0.header_id,
            header_size: h.rdh0.header_size,
            fee_id: h.rdh0.fee_id.0,
            priority_bit: h.rdh0.priority_bit,
            system_id: h.rdh0.system_id,
            rdh0_reserved0: h.rdh0.reserved0,
            offset_new_packet: h.offset_new_packet,
            memory_size: h.memory_size,
            link_id: h.link_id,
            packet_counter: h.packet_counter,
            cruid_dw: h.cruid_dw.0,
            bc_reserved0: h.rdh1.bc_reserved0.0,
            orbit: h.rdh1.orbit,
            dataformat_reserved0: h.dataformat_reserved0.0,
            trigger_type: h.rdh2.trigger_type,
            pages_counter: h.rdh2.pages_counter,
            stop_bit: h.rdh2.stop_bit,
            rdh2_reserved0: h.rdh2.reserved0,
            reserved1: h.reserved1,
            detector_field: h.rdh3.detector_field,
            par_bit: h.rdh3.par_bit,
            rdh3_reserved0: h.rdh3.reserved0,
            reserved2: h.reserved2,
        }
    }
}

impl From<Result<usize, TooShort>> for PlainText {
    fn from(written: Result<usize, TooShort>) -> PlainText
        ensures { result ≡ plain_written (answer written) }
    {
        match written {
            Ok(length) => PlainText {
                length,
                refusal: NO_REFUSAL,
            },
            Err(short) => PlainText {
                length: short.needed,
                refusal: BUFFER_TOO_SHORT,
            },
        }
    }
}
