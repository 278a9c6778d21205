// The header's seventh word, RDH3: bytes 48 to 55.

#[derive(Clone, Copy, Debug, PartialEq, Eq)]
pub struct Rdh3 {
    pub detector_field: u32,
    pub par_bit: u16,
    pub reserved0: u16,
}
