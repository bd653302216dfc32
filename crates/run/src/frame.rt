// What is left of a run, in numbers: slots and rows of the tables, labels, and how deep what stands there may be.
ghost use Rattle.std.specs.Prelude.{◌≡◌, ◌+◌, ◌^◌, ◌<◌};
ghost use Rattle.run.specs.Frames.{passed, test_of_loop};

use hir::place::Place;
use hir::range::Range;

// How a part of a function ended. A Result would hold the same ends, and the run keeps one of them between two turns.
#[derive(Clone, Copy)]
pub enum Exit {
    Normal,
    Broke(Option<u32>),
    Continued(Option<u32>),
    Returned(u32),
    Threw(u32),
    Spent,
}

// A loop by the order of its parts. A loop that has no update stays apart from one that may have, as in the definition of a run.
#[derive(Clone, Copy)]
pub enum Loop {
    TestFirst {
        test: u32,
        block: Range,
    },
    BlockFirst {
        block: Range,
        test: u32,
    },
    Updating {
        test: u32,
        update: Option<u32>,
        block: Range,
    },
}

impl Loop {
    pub(crate) fn test(self) -> u32
        ensures { result ≡ test_of_loop self }
    {
        match self {
            Loop::TestFirst { test, .. }
            | Loop::BlockFirst { test, .. }
            | Loop::Updating { test, .. } => test,
        }
    }
}

// The cases of a switch: those still to ask for, the place of the next one, the first without a test, and all of them.
// The place follows from the two rows; it stands there as in the definition of a run.
#[derive(Clone, Copy)]
pub struct Selection {
    pub value: u32,
    pub rest: Range,
    pub next: u32,
    pub default: Option<u32>,
    pub all: Range,
}

impl Selection {
    // Without its next case.
    pub(crate) fn passed(self) -> Selection
        requires some { 0 < self.rest.count }
        requires fits { self.rest.start + 1 < 2 ^ 32 }
        requires next { self.next + 1 < 2 ^ 32 }
        ensures { result ≡ passed self }
    {
        Selection {
            rest: self.rest.behind(1),
            next: self.next + 1,
            ..self
        }
    }
}

// A task of the run. A depth is that of the blocks, or of the values, that may be inside; a statement's value begins with 64, as in
// the definition. Its parts are handed on one by one, since the clauses of a turn name the frame by them.
#[derive(Clone, Copy)]
pub enum Frame {
    Block {
        rest: Range,
        depth: u32,
    },
    Statement {
        slot: u32,
        depth: u32,
    },
    Value {
        slot: u32,
        depth: u32,
    },
    Assigns {
        place: Option<Place>,
    },
    Instructions {
        rest: Range,
        depth: u32,
    },
    // The payload is a number, as a test's question takes it; a test that is no operator's has 0.
    AfterLeft {
        payload: u32,
        right: u32,
        depth: u32,
    },
    AfterTest {
        consequent: u32,
        alternate: u32,
        depth: u32,
    },
    Leaves {
        recorded: Option<u32>,
    },
    EndsLabel {
        label: Option<u32>,
    },
    EndsLoop {
        label: Option<u32>,
    },
    EndsSwitch {
        label: Option<u32>,
    },
    EndsRound {
        label: Option<u32>,
    },
    // The steps of a loop hold the same; a tag beside it would be matched as they are.
    Starts {
        repeated: Loop,
        label: Option<u32>,
        depth: u32,
    },
    Rounds {
        repeated: Loop,
        label: Option<u32>,
        depth: u32,
    },
    Tests {
        repeated: Loop,
        label: Option<u32>,
        depth: u32,
    },
    Selects {
        selection: Selection,
        label: Option<u32>,
        depth: u32,
    },
    Cases {
        rest: Range,
        depth: u32,
    },
    Catches {
        binding: Option<Place>,
        handler: Range,
        depth: u32,
    },
}

// What a jump looks for around it: a statement to leave, or a loop to go on with, by its label where it names one.
#[derive(Clone, Copy)]
pub enum Target {
    Break(Option<u32>),
    Continue(Option<u32>),
}

impl From<Target> for Exit {
    ghost use Rattle.run.specs.Exits.{exit_to};

    ghost from_gives = { λ target exit. exit ≡ exit_to target };

    fn from(target: Target) -> Exit {
        match target {
            Target::Break(label) => Exit::Broke(label),
            Target::Continue(label) => Exit::Continued(label),
        }
    }
}
