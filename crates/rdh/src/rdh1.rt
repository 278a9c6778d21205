// The header's third word, RDH1: bytes 16 to 23.
ghost use Rattle.std.specs.Prelude.{◌≡◌};
ghost use Rattle.rdh.specs.Subfields.{bc_of, bc_reserved_of};

// The bunch counter, 12 bits, and 20 reserved bits above it.
#[derive(Clone, Copy, Debug, PartialEq, Eq)]
pub struct BcReserved(pub u32);

#[derive(Clone, Copy, Debug, PartialEq, Eq)]
pub struct Rdh1 {
    pub bc_reserved0: BcReserved,
    pub orbit: u32,
}

impl Rdh1 {
    // The bunch counter.
    pub fn bc(self) -> u16
        ensures { result ≡ bc_of self.bc_reserved0.0 }
    {
        (self.bc_reserved0.0 % 4096) as u16
    }

    pub fn reserved0(self) -> u32
        ensures { result ≡ bc_reserved_of self.bc_reserved0.0 }
    {
        self.bc_reserved0.0 / 4096
    }
}
