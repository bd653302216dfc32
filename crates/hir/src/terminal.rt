// Terminals: what directs control, with the blocks and values inside.
ghost use Rattle.std.specs.Prelude.{◌≡◌, Some, None, if◌then◌else◌};

use crate::place::Place;
use crate::range::Range;

// The statements of a block: a row of the entries, each the slot of a statement.
pub type ReactiveBlock = Range;

#[derive(Clone, Copy)]
pub enum ReactiveTerminalTargetKind {
    Implicit = 0,
    Labeled = 1,
    Unlabeled = 2,
}

#[derive(Clone, Copy)]
pub struct ReactiveLabel {
    pub id: u32,
    pub implicit: bool,
}

impl ReactiveLabel {
    // The number that a jump may name; an implicit label has none.
    pub fn named(self) -> Option<u32>
        ensures { result ≡ (if self.implicit then None else Some self.id) }
    {
        if self.implicit { None } else { Some(self.id) }
    }
}

#[derive(Clone, Copy)]
pub enum ReactiveTerminal {
    Break {
        target: u32,
        id: u32,
        target_kind: ReactiveTerminalTargetKind,
    },
    Continue {
        target: u32,
        id: u32,
        target_kind: ReactiveTerminalTargetKind,
    },
    Return {
        value: Place,
        id: u32,
    },
    Throw {
        value: Place,
        id: u32,
    },
    Switch {
        test: Place,
        cases: Range,
        id: u32,
    },
    DoWhile {
        loop_block: ReactiveBlock,
        test: u32,
        id: u32,
    },
    While {
        test: u32,
        loop_block: ReactiveBlock,
        id: u32,
    },
    For {
        init: u32,
        test: u32,
        update: Option<u32>,
        loop_block: ReactiveBlock,
        id: u32,
    },
    ForOf {
        init: u32,
        test: u32,
        loop_block: ReactiveBlock,
        id: u32,
        span: u32,
    },
    ForIn {
        init: u32,
        loop_block: ReactiveBlock,
        id: u32,
        span: u32,
    },
    If {
        test: Place,
        consequent: ReactiveBlock,
        alternate: Option<ReactiveBlock>,
        id: u32,
    },
    Label {
        block: ReactiveBlock,
        id: u32,
    },
    Try {
        block: ReactiveBlock,
        handler_binding: Option<Place>,
        handler: ReactiveBlock,
        id: u32,
    },
}

#[derive(Clone, Copy)]
pub struct ReactiveTerminalStatement {
    pub terminal: ReactiveTerminal,
    pub label: Option<ReactiveLabel>,
}

#[derive(Clone, Copy)]
pub struct ReactiveSwitchCase {
    pub test: Option<Place>,
    pub block: Option<ReactiveBlock>,
}
