// The tests of a header, one by one: what the Rust's validators call a sanity check, without its text. A module for each word of the
// header; each function answers whether its test fails.
#![tactic(auto)]

ghost use Rattle.std.specs.Prelude.{◌≡◌};
ghost use Rattle.sanity.specs.Tests.{reserved0_test};

pub mod cru;
pub mod fee_id;
pub mod rdh0;
pub mod rdh1;
pub mod rdh2;
pub mod rdh3;

// What a header is held to: its header ID, and whether its system id has to be that of the ITS.
#[derive(Clone, Copy, Debug, PartialEq, Eq)]
pub struct Criteria {
    pub header_id: u8,
    pub its: bool,
}

// The reserved part of any of the words.
pub fn reserved0_fails(reserved0: u32) -> bool
    ensures { result ≡ (reserved0_test reserved0).fails }
{
    reserved0 != 0
}
