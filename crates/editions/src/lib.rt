// The converter: sheets of one edition in the other.
#![tactic(auto)]

pub mod convert;
