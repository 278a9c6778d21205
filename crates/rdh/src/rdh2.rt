// The header's fifth word, RDH2: bytes 32 to 39.
ghost use Rattle.std.specs.Prelude.{◌≡◌};
ghost use Rattle.rdh.specs.Subfields.{is_pht_trigger_type};

#[derive(Clone, Copy, Debug, PartialEq, Eq)]
pub struct Rdh2 {
    pub trigger_type: u32,
    pub pages_counter: u16,
    pub stop_bit: u8,
    pub reserved0: u8,
}

impl Rdh2 {
    // Whether a physics trigger (PhT) is among the reasons why data were taken.
    pub fn is_pht_trigger(self) -> bool
        ensures { result ≡ is_pht_trigger_type self.trigger_type }
    {
        self.trigger_type / 16 % 2 == 1
    }
}
