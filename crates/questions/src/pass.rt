// A pass over the statements of a function, in file order.
use crate::line::{Bounds, Findings};
use hir::arena::Arena;

#[derive(Drop)]
pub struct Pass<'a> {
    pub arena: &'a Arena,
    pub bounds: Bounds,
    pub found: Findings,
}
