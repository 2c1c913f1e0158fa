// The hall lists: all paper numbers of a hall, from its one hall number.
#![tactic(auto)]

pub mod list;
