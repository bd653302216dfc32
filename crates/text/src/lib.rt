// Words as text in decimal, read and written, and as bytes.
#![tactic(auto)]

pub mod again;
pub mod bytes;
pub mod character;
pub mod line;
pub mod message;
pub mod read;
pub mod sections;
