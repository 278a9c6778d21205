// The header's first word, RDH0: bytes 0 to 7.
ghost use Rattle.std.specs.Prelude.{◌≡◌};
ghost use Rattle.rdh.specs.Subfields.{layer_of, stave_of, uplink_of};

// The FEE id, which packs the layer, the fibre uplink and the stave into 16 bits.
#[derive(Clone, Copy, Debug, PartialEq, Eq)]
pub struct FeeId(pub u16);

impl FeeId {
    // The number of the stave within its layer.
    pub fn stave(self) -> u8
        ensures { result ≡ stave_of self.0 }
    {
        (self.0 % 64) as u8
    }

    pub fn layer(self) -> u8
        ensures { result ≡ layer_of self.0 }
    {
        (self.0 / 4096 % 8) as u8
    }

    // The fibre uplink that the packet came by.
    pub fn uplink(self) -> u8
        ensures { result ≡ uplink_of self.0 }
    {
        (self.0 / 256 % 4) as u8
    }
}

#[derive(Clone, Copy, Debug, PartialEq, Eq)]
pub struct Rdh0 {
    pub header_id: u8,
    pub header_size: u8,
    pub fee_id: FeeId,
    pub priority_bit: u8,
    pub system_id: u8,
    pub reserved0: u16,
}
