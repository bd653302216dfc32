// Writes the function that tables hold as a file.
#![tactic(auto)]

mod block;
mod encode;
mod environment;
pub mod file;
mod pairs;
mod place;
mod terminal;
mod value;
mod writer;
