// A table of at most LIMIT items, each in its slot, in memory that is taken when the table is made.
ghost use Rattle.std.specs.Prelude.{◌≡◌, ℕ, ◌+◌, ◌<◌, ◌≤◌, [], ◌∷◌, ◌++◌, Some, length, take, drop, IfOk, vec_len, vec_capacity};
ghost use Rattle.hir.specs.Options.{nth};

use crate::range::Range;
use std::alloc::{AllocError, Global};

// `vec` is open to all, since what a table stands for is told of its items.
#[derive(Drop)]
pub struct Table<T, const LIMIT: u32> {
    pub vec: Vec<T>,
    ghost room: { LIMIT ≤ vec_capacity vec },
    ghost within: { vec_len vec ≤ LIMIT },
}

impl<T: Copy, const LIMIT: u32> Table<T, LIMIT> {
    pub fn new(heap: Global) -> Result<Table<T, LIMIT>, AllocError>
        ensures { IfOk result (λ t. t.vec.items ≡ []) }
    {
        Ok(Table {
            vec: Vec::with_capacity(heap, LIMIT as usize)?,
        })
    }

    // Adds an item, and says its slot.
    pub fn add(&mut self, item: T) -> u32
        requires { vec_len self.old.vec < LIMIT }
        ensures slot { result ≡ vec_len self.old.vec }
        ensures items { self.new.vec.items ≡ self.old.vec.items ++ item ∷ [] }
        ensures len { vec_len self.new.vec ≡ vec_len self.old.vec + 1 }
    {
        let slot = self.vec.len() as u32;
        self.vec.push_reserved(item);
        slot
    }

    // Adds some items, one after another.
    pub fn extend(&mut self, items: &[T])
        requires { vec_len self.old.vec + length items.now ≤ LIMIT }
        ensures items { self.new.vec.items ≡ self.old.vec.items ++ items.now }
        ensures len { vec_len self.new.vec ≡ vec_len self.old.vec + length items.now }
    {
        self.vec.extend_from_slice(items).unwrap();
    }

    pub fn at(&self, slot: u32) -> T
        requires { slot < vec_len self.now.vec }
        ensures { nth self.now.vec.items slot ≡ Some result }
    {
        self.vec[slot as usize]
    }

    // The items of some slots, one after another.
    pub fn row(&self, range: Range) -> &[T]
        requires { range.start + range.count ≤ vec_len self.now.vec }
        ensures { result.now ≡ take range.count (drop range.start self.now.vec.items) }
    {
        let start = range.start as usize;
        &self.vec.as_slice()[start..start + range.count as usize]
    }

    pub fn clear(&mut self)
        ensures { self.new.vec.items ≡ [] }
    {
        self.vec.clear();
    }
}
