// The operands of an instruction's value, and the places that it writes.
ghost use Rattle.std.specs.Prelude.{◌≡◌, ◌+◌, ◌≤◌, ◌++◌, length, vec_len, vec_capacity};
ghost use Rattle.run.specs.Operands.{lastly, reads, stores};

use crate::store::{read, write};
use hir::place::Place;

// What the last of some places holds; 0 where there is none.
pub fn last_of(store: &[u32], places: &[Place]) -> u32
    ensures { result ≡ lastly store.now 0 places.now }
{
    // A match: the check finds the empty row alone in it, and of a `map_or` neither case.
    match places.last() {
        Some(place) => read(store, place.identifier),
        None => 0,
    }
}

// Some places get a value.
pub fn store_all(store: &mut [u32], places: &[Place], value: u32)
    ensures { store.new ≡ stores store.old value places.now }
{
    for place in places {
        write(store, place.identifier, value);
    }
}

// Puts what some places hold behind the values.
pub fn read_all(store: &[u32], places: &[Place], values: &mut Vec<u32>)
    requires { vec_len values.old + length places.now ≤ vec_capacity values.old }
    ensures items { values.new.items ≡ values.old.items ++ reads store.now places.now }
    ensures capacity { vec_capacity values.new ≡ vec_capacity values.old }
{
    for place in places {
        values.push_reserved(read(store, place.identifier));
    }
}
