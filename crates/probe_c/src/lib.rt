// The functions of crate `probe` for C, under their own names and with the same clauses: no crate is a library and a
// static library.
#![tactic(auto)]

pub mod counters;
pub mod draws;
pub mod floats;
pub mod forms;
pub mod kicks;
pub mod scores;
pub mod songs;
pub mod stages;
