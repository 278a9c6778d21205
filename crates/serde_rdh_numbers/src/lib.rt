// Numbers of several bytes, lowest byte first: each is joined from its low and its high half.
#![tactic(auto)]

ghost use Rattle.std.specs.Prelude.{ℕ};
ghost use Rattle.serde_rdh_numbers.specs.Joined.{Joined};

// A number that can be a half of one of twice as many bytes.
pub trait Half: Sized {
    type Whole;

    // How many bytes a half has, and the numbers that it and the whole are.
    ghost width: { ℕ };

    ghost number: { Self → ℕ };

    ghost whole: { Self.Whole → ℕ };

    // The number that has these bytes, and those of `high` behind them.
    fn join(self, high: Self) -> Self::Whole
        ensures { Joined width (number self) (number high) (whole result) };
}

impl Half for u8 {
    type Whole = u16;

    ghost width = { 1 };

    ghost number = { λ n. n };

    ghost whole = { λ n. n };

    fn join(self, high: u8) -> u16 {
        u16::from(self) + 0x100 * u16::from(high)
    }
}

impl Half for u16 {
    type Whole = u32;

    ghost width = { 2 };

    ghost number = { λ n. n };

    ghost whole = { λ n. n };

    fn join(self, high: u16) -> u32 {
        u32::from(self) + 0x1_0000 * u32::from(high)
    }
}

impl Half for u32 {
    type Whole = u64;

    ghost width = { 4 };

    ghost number = { λ n. n };

    ghost whole = { λ n. n };

    fn join(self, high: u32) -> u64 {
        u64::from(self) + 0x1_0000_0000 * u64::from(high)
    }
}
