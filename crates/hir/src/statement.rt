// The four kinds of statement.
use crate::terminal::{ReactiveBlock, ReactiveTerminalStatement};
use crate::value::ReactiveInstruction;

#[derive(Clone, Copy)]
pub struct ReactiveScopeBlock {
    pub scope: u32,
    pub instructions: ReactiveBlock,
}

// Alike, but a type of its own as in the compiler: a pruned block owns no scope.
#[derive(Clone, Copy)]
pub struct PrunedReactiveScopeBlock {
    pub scope: u32,
    pub instructions: ReactiveBlock,
}

#[derive(Clone, Copy)]
pub enum ReactiveStatement {
    Instruction(ReactiveInstruction),
    Terminal(ReactiveTerminalStatement),
    Scope(ReactiveScopeBlock),
    PrunedScope(PrunedReactiveScopeBlock),
}
