// What the program `run_screen` is asked, and what it says.
#![tactic(auto)]

pub mod arguments;
pub mod laws;
pub mod number;
pub mod refusal;
pub mod said;
pub mod store;
pub mod unused;
