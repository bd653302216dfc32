// Loads a function file into tables.
#![tactic(auto)]

pub mod begins;
pub mod file;
pub mod items;
pub mod load;
pub mod operations;
pub mod read_block;
pub mod read_tables;
pub mod read_top;
pub mod read_value;
pub mod reader;
pub mod section;
pub mod words;
