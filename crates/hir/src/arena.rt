// The slots of statements and switch cases, over those of values. What stands in a slot is never changed.
ghost use Rattle.std.specs.Prelude.{◌≡◌, [], IfOk};

use crate::rows::Rows;
use crate::statement::ReactiveStatement;
use crate::table::Table;
use crate::terminal::ReactiveSwitchCase;
use crate::used::{CASES, STATEMENTS};
use crate::value_arena::ValueArena;
use std::alloc::{AllocError, Global};

// A block is a row of the entries, each the slot of a statement; a switch's cases stand in a row.
#[derive(Drop)]
pub struct Arena {
    pub inner: ValueArena,
    pub statements: Table<ReactiveStatement, STATEMENTS>,
    pub entries: Rows<u32, STATEMENTS>,
    pub cases: Rows<ReactiveSwitchCase, CASES>,
}

impl Arena {
    pub fn new(heap: Global) -> Result<Arena, AllocError>
        ensures { IfOk result (λ a. (a.statements.vec.items ≡ []) × (a.entries.table.vec.items ≡ []) × (a.cases.table.vec.items ≡ []) × (a.entries.waiting.vec.items ≡ []) × (a.cases.waiting.vec.items ≡ [])) }
    {
        Ok(Arena {
            inner: ValueArena::new(heap)?,
            statements: Table::new(heap)?,
            entries: Rows::new(heap)?,
            cases: Rows::new(heap)?,
        })
    }

    pub fn clear(&mut self)
        ensures statements { self.new.statements.vec.items ≡ [] }
        ensures entries { self.new.entries.table.vec.items ≡ [] }
        ensures cases { self.new.cases.table.vec.items ≡ [] }
        ensures waiting { self.new.entries.waiting.vec.items ≡ [] }
        ensures casing { self.new.cases.waiting.vec.items ≡ [] }
        ensures values { self.new.inner.values.vec.items ≡ [] }
        ensures instructions { self.new.inner.instructions.table.vec.items ≡ [] }
        ensures places { self.new.inner.places.vec.items ≡ [] }
        ensures inner_waiting { self.new.inner.instructions.waiting.vec.items ≡ [] }
    {
        self.inner.clear();
        self.statements.clear();
        self.entries.clear();
        self.cases.clear();
    }
}
