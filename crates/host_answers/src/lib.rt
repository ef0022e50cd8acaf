// Answers as numbers, for every function that a host calls.
#![tactic(auto)]

pub mod answer;
pub mod place;
