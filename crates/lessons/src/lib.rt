// The search for a seed for a lesson.
#![tactic(auto)]

pub mod lesson;
pub mod wishes;
