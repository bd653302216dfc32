// The run of a function over its tables: a loop with a stack of numbers, on lent memory.
#![tactic(auto)]

mod ask;
mod ends;
pub mod frame;
mod jumps;
mod loops;
mod machine;
pub mod memory;
mod operands;
mod operations;
pub mod run;
mod sequences;
mod statements;
mod store;
mod switches;
mod terminals;
mod turn;
mod values;
