// The tree of a reactive function in numbered slots, with the tables that it refers to.
#![tactic(auto)]

pub mod arena;
pub mod depth;
pub mod environment;
pub mod place;
pub mod range;
pub mod rows;
pub mod settled;
pub mod statement;
pub mod table;
pub mod tables;
pub mod terminal;
pub mod used;
pub mod value;
pub mod value_arena;
