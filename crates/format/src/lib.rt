// The function file as a definition: its words, what they say, and why a file is refused.
#![tactic(auto)]

pub mod fault;
pub mod round_trip;
