// The library for C: each function calls the door of the same name, and promises what it promises. `include/kesarimbu.h` describes them.
#![tactic(auto)]

mod header;
mod links;
mod list;
mod scan;
mod stave_filter;
mod staves;
mod triggers;
mod verdict;
