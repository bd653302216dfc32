// One shape for every terminal: what it has of its own, and the values and blocks inside it in file order.
ghost use Rattle.std.specs.Prelude.{◌≡◌};
ghost use Rattle.questions.specs.Parts.{parts_of};

use crate::around::{Inside, Jump};
use hir::place::Place;
use hir::range::{EMPTY, Range};
use hir::terminal::{ReactiveBlock, ReactiveTerminal};

// A block that stands ahead of the values is the leading one.
#[derive(Clone, Copy)]
pub struct Parts {
    pub place: Option<Place>,
    pub jump: Option<Jump>,
    pub inside: Inside,
    pub leading: Option<ReactiveBlock>,
    pub init: Option<u32>,
    pub test: Option<u32>,
    pub update: Option<u32>,
    pub block: Option<ReactiveBlock>,
    pub other: Option<ReactiveBlock>,
    pub cases: Range,
}

// Constants and no `Default`: their values are known wherever they stand.
const BARE: Parts = Parts {
    place: None,
    jump: None,
    inside: Inside::Plain,
    leading: None,
    init: None,
    test: None,
    update: None,
    block: None,
    other: None,
    cases: EMPTY,
};

const LOOP: Parts = Parts {
    inside: Inside::Loop,
    ..BARE
};

// The parts of each terminal.
pub fn view(terminal: ReactiveTerminal) -> Parts
    ensures { result ≡ parts_of terminal }
{
    match terminal {
        ReactiveTerminal::Break {
            target,
            target_kind,
            ..
        } => Parts {
            jump: Some(Jump::Break(target, target_kind)),
            ..BARE
        },
        ReactiveTerminal::Continue {
            target,
            target_kind,
            ..
        } => Parts {
            jump: Some(Jump::Continue(target, target_kind)),
            ..BARE
        },
        ReactiveTerminal::Return { value, .. } | ReactiveTerminal::Throw { value, .. } => Parts {
            place: Some(value),
            ..BARE
        },
        ReactiveTerminal::Switch { test, cases, .. } => Parts {
            place: Some(test),
            inside: Inside::Switch,
            cases,
            ..BARE
        },
        ReactiveTerminal::DoWhile {
            loop_block,
            test,
            ..
        } => Parts {
            leading: Some(loop_block),
            test: Some(test),
            ..LOOP
        },
        ReactiveTerminal::While {
            test,
            loop_block,
            ..
        } => Parts {
            test: Some(test),
            block: Some(loop_block),
            ..LOOP
        },
        ReactiveTerminal::For {
            init,
            test,
            update,
            loop_block,
            ..
        } => Parts {
            init: Some(init),
            test: Some(test),
            update,
            block: Some(loop_block),
            ..LOOP
        },
        ReactiveTerminal::ForOf {
            init,
            test,
            loop_block,
            ..
        } => Parts {
            init: Some(init),
            test: Some(test),
            block: Some(loop_block),
            ..LOOP
        },
        ReactiveTerminal::ForIn {
            init,
            loop_block,
            ..
        } => Parts {
            init: Some(init),
            block: Some(loop_block),
            ..LOOP
        },
        ReactiveTerminal::If {
            test,
            consequent,
            alternate,
            ..
        } => Parts {
            place: Some(test),
            block: Some(consequent),
            other: alternate,
            ..BARE
        },
        ReactiveTerminal::Label { block, .. } => Parts {
            block: Some(block),
            ..BARE
        },
        ReactiveTerminal::Try {
            block,
            handler_binding,
            handler,
            ..
        } => Parts {
            place: handler_binding,
            block: Some(block),
            other: Some(handler),
            ..BARE
        },
    }
}
