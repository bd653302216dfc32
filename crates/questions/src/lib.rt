// Whether the function that tables hold has its numbers in range, its operations in shape, its targets and its scopes.
#![tactic(auto)]

ghost use Rattle.std.specs.Prelude.{◌≡◌, ◌≤◌, true, is_some};
ghost use Rattle.hir.specs.Decode.{root_of};
ghost use Rattle.hir.specs.Held.{held, slots};
ghost use Rattle.hir.specs.Sizes.{sizes};
ghost use Rattle.questions.specs.Answers.{Answers, answer_of};

use crate::around::NOWHERE;
use crate::line::{Bounds, Findings, NOTHING};
use crate::pass::Pass;
use crate::tables::no_records;
use format::fault::CheckFault;
use hir::arena::Arena;
use hir::depth::deepest;
use hir::environment::Environment;
use hir::terminal::ReactiveBlock;

mod around;
mod blocks;
mod line;
mod operations;
mod parts;
mod pass;
mod tables;
mod terminals;
mod values;

impl Findings {
    // `recordless` tells that no scope has a record, which is asked ahead of the Scope blocks.
    fn answer(&self, recordless: bool) -> Result<(), CheckFault>
        ensures { result ≡ answer_of self.now recordless }
    {
        self.numbers
            .map_or(Ok(()), |place| Err(CheckFault::Numbers(place)))?;
        self.shapes
            .map_or(Ok(()), |place| Err(CheckFault::Shapes(place)))?;
        self.targets
            .map_or(Ok(()), |place| Err(CheckFault::Targets(place)))?;
        (!recordless)
            .then_some(0)
            .or(self.scopes)
            .map_or(Ok(()), |place| Err(CheckFault::Scopes(place)))
    }
}

// Asks the four questions one after the other. A refusal names the first statement in file order that has the fault, or 0
// for a fault in a table.
pub fn check(
    environment: &Environment,
    arena: &Arena,
    root: ReactiveBlock,
) -> Result<(), CheckFault>
    requires rooted { is_some (root_of (slots arena.now) root) ≡ true }
    requires counted { (sizes (held environment.now arena.now root)).statements ≤ 2048 }
    ensures { Answers (held environment.now arena.now root) result }
{
    let bounds = Bounds::of(environment);
    if !bounds.tables(environment) {
        return Err(CheckFault::Numbers(0));
    }
    let mut pass = Pass {
        arena,
        bounds,
        found: NOTHING,
    };
    pass.block(root, deepest(), &NOWHERE);
    pass.found.answer(no_records(&environment.scopes.vec))
}
