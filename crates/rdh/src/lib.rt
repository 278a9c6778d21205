// The 64-byte raw data header (RDH) of the ALICE readout: its fields. A module for each word of the header, as in the Rust.
#![tactic(auto)]

pub mod rdh0;
pub mod rdh1;
pub mod rdh2;
pub mod rdh3;
pub mod rdh_cru;
