// Functions that the differential driver (tests/differential) and the benchmark (bench) call by crate `probe_c`, and
// that `replay` calls: numbers and slices in, numbers and slices out. What bad input is answered with stands with each.
#![tactic(auto)]

pub mod counters;
pub mod draws;
pub mod floats;
pub mod forms;
pub mod kicks;
pub mod scores;
pub mod songs;
pub mod stages;
