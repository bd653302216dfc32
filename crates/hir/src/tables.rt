// The tables: the function that is found, how many slots are used, and whether a draft stands on them.
ghost use Rattle.std.specs.Prelude.{◌≡◌, ◌≤◌, true, false, length, is_some, IfOk};
ghost use Rattle.hir.specs.Decode.{root_of};
ghost use Rattle.hir.specs.Encode.{encode};
ghost use Rattle.hir.specs.Held.{held, slots};
ghost use Rattle.hir.specs.Limits.{within, limits};
ghost use Rattle.hir.specs.Sizes.{sizes, none};
ghost use Rattle.hir.specs.Tree.{empty};

use crate::arena::Arena;
use crate::environment::Environment;
use crate::range::{EMPTY, Range};
use crate::used::{UNUSED, Used};
use std::alloc::{AllocError, Global};

// `words` is the length of the function's file.
#[derive(Drop)]
pub struct Tables {
    pub environment: Environment,
    pub arena: Arena,
    pub root: Range,
    pub used: Used,
    pub words: u32,
    pub draft: bool,
    ghost rooted: { is_some (root_of (slots arena) root) ≡ true },
    ghost measured: { words ≡ length (encode (held environment arena root)) },
    ghost counted: { within (sizes (held environment arena root)) used ≡ true },
    ghost limited: { within used limits ≡ true },
}

impl Tables {
    // Empty tables.
    pub fn new(heap: Global) -> Result<Tables, AllocError>
        ensures { IfOk result (λ t. (held t.environment t.arena t.root ≡ empty) × (t.used ≡ none) × (t.draft ≡ false)) }
    {
        Ok(Tables {
            environment: Environment::new(heap)?,
            arena: Arena::new(heap)?,
            root: EMPTY,
            used: UNUSED,
            words: 12,
            draft: false,
        })
    }
}
