// A header and what is answered about headers as structs that C has too, from and to the reader's own types.
#![tactic(auto)]

pub mod plain;
pub mod replies;
