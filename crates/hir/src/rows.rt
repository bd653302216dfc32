// A table of rows. The rows inside a row come to stand first, so items wait until their own row is whole.
ghost use Rattle.std.specs.Prelude.{◌≡◌, ◌+◌, ◌-◌, ◌<◌, ◌≤◌, [], ◌∷◌, ◌++◌, take, drop, IfOk, vec_len};

use crate::range::Range;
use crate::table::Table;
use std::alloc::{AllocError, Global};

#[derive(Drop)]
pub struct Rows<T, const LIMIT: u32> {
    pub table: Table<T, LIMIT>,
    pub waiting: Table<T, LIMIT>,
}

impl<T: Copy, const LIMIT: u32> Rows<T, LIMIT> {
    pub fn new(heap: Global) -> Result<Rows<T, LIMIT>, AllocError>
        ensures { IfOk result (λ r. (r.table.vec.items ≡ []) × (r.waiting.vec.items ≡ [])) }
    {
        Ok(Rows {
            table: Table::new(heap)?,
            waiting: Table::new(heap)?,
        })
    }

    // Puts an item aside, for the row that it will stand in.
    pub fn wait(&mut self, item: T)
        requires { vec_len self.old.waiting.vec < LIMIT }
        ensures items { self.new.waiting.vec.items ≡ self.old.waiting.vec.items ++ item ∷ [] }
        ensures len { vec_len self.new.waiting.vec ≡ vec_len self.old.waiting.vec + 1 }
        ensures table { self.new.table ≡ self.old.table }
    {
        self.waiting.add(item);
    }

    // Makes a row of the items that were put aside since `base`.
    pub fn settle(&mut self, base: usize) -> Range
        requires within { base ≤ vec_len self.old.waiting.vec }
        requires room { vec_len self.old.table.vec + (vec_len self.old.waiting.vec - base) ≤ LIMIT }
        ensures start { result.start ≡ vec_len self.old.table.vec }
        ensures count { result.count ≡ vec_len self.old.waiting.vec - base }
        ensures items { self.new.table.vec.items ≡ self.old.table.vec.items ++ drop base self.old.waiting.vec.items }
        ensures len { vec_len self.new.table.vec ≡ vec_len self.old.table.vec + (vec_len self.old.waiting.vec - base) }
        ensures waiting { self.new.waiting.vec.items ≡ take base self.old.waiting.vec.items }
        ensures base { vec_len self.new.waiting.vec ≡ base }
    {
        let start = self.table.vec.len() as u32;
        let count = (self.waiting.vec.len() - base) as u32;
        self.table.extend(&self.waiting.vec.as_slice()[base..]);
        self.waiting.vec.truncate(base);
        Range { start, count }
    }

    pub fn clear(&mut self)
        ensures table { self.new.table.vec.items ≡ [] }
        ensures waiting { self.new.waiting.vec.items ≡ [] }
    {
        self.table.clear();
        self.waiting.clear();
    }
}
