// The columns of the row that shows a header: their values, and how they are written.
#![tactic(auto)]

ghost use Rattle.std.specs.Prelude.{◌≡◌};
ghost use Rattle.rdh_columns.specs.Columns.{columns_of, columns_text};
ghost use Rattle.text_writer.specs.Writer.{extended};

use rdh::rdh_cru::RdhCru;
use text_writer::TextWriter;

// What the row shows of a header, in its order.
#[derive(Clone, Copy)]
pub struct Columns {
    pub header_id: u64,
    pub header_size: u64,
    pub fee_id: u64,
    pub system_id: u64,
    pub offset_new_packet: u64,
    pub link_id: u64,
    pub packet_counter: u64,
    pub bc: u64,
    pub orbit: u64,
    pub data_format: u64,
    pub trigger_type: u64,
    pub pages_counter: u64,
    pub stop_bit: u64,
    pub detector_field: u64,
}

impl From<RdhCru> for Columns {
    fn from(h: RdhCru) -> Columns
        ensures { result ≡ columns_of h }
    {
        Columns {
            header_id: h.rdh0.header_id as u64,
            header_size: h.rdh0.header_size as u64,
            fee_id: h.rdh0.fee_id.0 as u64,
            system_id: h.rdh0.system_id as u64,
            offset_new_packet: h.offset_new_packet as u64,
            link_id: h.link_id as u64,
            packet_counter: h.packet_counter as u64,
            bc: h.rdh1.bc() as u64,
            orbit: h.rdh1.orbit as u64,
            data_format: h.data_format() as u64,
            trigger_type: h.rdh2.trigger_type as u64,
            pages_counter: h.rdh2.pages_counter as u64,
            stop_bit: h.rdh2.stop_bit as u64,
            detector_field: h.rdh3.detector_field as u64,
        }
    }
}

// Writes the columns, each filled with blanks up to its width; the last one ends the row.
pub fn put_columns(w: &mut TextWriter, c: Columns)
    ensures { w.new ≡ extended w.old (columns_text c) }
{
    w.write_decimal_left(c.header_id, 6);
    w.write_decimal_left(c.header_size, 7);
    w.write_decimal_left(c.fee_id, 7);
    w.write_decimal_left(c.system_id, 6);
    w.write_decimal_left(c.offset_new_packet, 8);
    w.write_decimal_left(c.link_id, 6);
    w.write_decimal_left(c.packet_counter, 10);
    w.write_decimal_left(c.bc, 5);
    w.write_hex_left(c.orbit, 12);
    w.write_decimal_left(c.data_format, 11);
    w.write_hex_left(c.trigger_type, 10);
    w.write_decimal_left(c.pages_counter, 9);
    w.write_decimal_left(c.stop_bit, 5);
    w.write_byte(b' ');
    w.write_byte(b' ');
    w.write_hex(c.detector_field);
}
