// The slots of values. What stands in a slot is never changed: the tables only grow, or are emptied.
ghost use Rattle.std.specs.Prelude.{◌≡◌, [], IfOk};

use crate::place::Place;
use crate::rows::Rows;
use crate::table::Table;
use crate::used::{PLACES, STATEMENTS, VALUES};
use crate::value::{ReactiveInstruction, ReactiveValue};
use std::alloc::{AllocError, Global};

// A sequence's instructions stand in a row, and so do the places of an operation.
#[derive(Drop)]
pub struct ValueArena {
    pub values: Table<ReactiveValue, VALUES>,
    pub instructions: Rows<ReactiveInstruction, STATEMENTS>,
    pub places: Table<Place, PLACES>,
}

impl ValueArena {
    pub fn new(heap: Global) -> Result<ValueArena, AllocError>
        ensures { IfOk result (λ a. (a.values.vec.items ≡ []) × (a.instructions.table.vec.items ≡ []) × (a.places.vec.items ≡ []) × (a.instructions.waiting.vec.items ≡ [])) }
    {
        Ok(ValueArena {
            values: Table::new(heap)?,
            instructions: Rows::new(heap)?,
            places: Table::new(heap)?,
        })
    }

    pub fn clear(&mut self)
        ensures values { self.new.values.vec.items ≡ [] }
        ensures instructions { self.new.instructions.table.vec.items ≡ [] }
        ensures places { self.new.places.vec.items ≡ [] }
        ensures waiting { self.new.instructions.waiting.vec.items ≡ [] }
    {
        self.values.clear();
        self.instructions.clear();
        self.places.clear();
    }
}
