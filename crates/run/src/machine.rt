// A run that is under way: the memory and what else is lent to it.
// Its turns ensure `same` and `turns` apart: the check finds `same` alone, and in one record it would be written with `turns` in each answer.
ghost use Rattle.std.specs.Prelude.{◌≡◌};
ghost use Rattle.semantics.specs.Machine.{look};

use crate::memory::Memory;
use crate::store::read;
use hir::tables::Tables;
use host::Host;

#[derive(Drop)]
pub(crate) struct Machine<'a, H: Host> {
    pub memory: &'a mut Memory,
    pub tables: &'a Tables,
    pub host: &'a mut H,
    pub store: &'a mut [u32],
    pub budget: u32,
}

impl<'a, H: Host> Machine<'a, H> {
    // What the store holds.
    pub(crate) fn look(&self, at: u32) -> u32
        ensures { result ≡ look self.now.store.now at }
    {
        read(self.store, at)
    }
}
