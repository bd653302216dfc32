// The store: a value for each identifier. Past its end every place reads 0 and keeps nothing.
ghost use Rattle.std.specs.Prelude.{◌≡◌};
ghost use Rattle.run.specs.Turn.{kept};
ghost use Rattle.semantics.specs.Machine.{look, put};

use hir::place::Place;

#[tactic(auto, unfolding(semantics::specs::Machine::look))]
pub fn read(store: &[u32], at: u32) -> u32
    ensures { result ≡ look store.now at }
{
    store.get(at as usize).copied().unwrap_or(0)
}

#[tactic(auto, unfolding(semantics::specs::Machine::put))]
pub fn write(store: &mut [u32], at: u32, value: u32)
    ensures { store.new ≡ put store.old at value }
{
    // by index, since a proof knows nothing of the store after `get_mut`
    let at = at as usize;
    if at < store.len() {
        store[at] = value;
    }
}

// An optional place gets a value.
pub fn assign(store: &mut [u32], place: Option<Place>, value: u32)
    ensures { store.new ≡ kept place store.old value }
{
    if let Some(place) = place {
        write(store, place.identifier, value);
    }
}
