// What an instruction's own value does: it gives its operand, declares, stores, or asks the host.
ghost use Rattle.std.specs.Prelude.{◌≡◌, ℕ, ◌+◌, ◌≤◌, ◌∷◌, drop, length, vec_len, vec_capacity};
ghost use Rattle.semantics.specs.Exec.{class};
ghost use Rattle.run.specs.Operands.{reads};
ghost use Rattle.run.specs.Operations.{named, about, Does, AsksAll, AsksEach};

use crate::operands::{last_of, read_all, store_all};
use crate::store::write;
use hir::place::Place;
use hir::value::InstructionValue;
use host::{Host, Question, Thrown};

#[derive(Clone, Copy)]
pub enum Class {
    Loads,
    Declares,
    Stores,
    AsksEach,
    Asks,
}

impl From<u32> for Class {
    ghost from_gives = { λ kind c. named c ≡ class kind };

    #[tactic(auto, unfolding(semantics::specs::Exec::class))]
    fn from(kind: u32) -> Class {
        match kind {
            0 | 1 => Class::Loads,
            2 | 3 => Class::Declares,
            4 | 5 => Class::Stores,
            6 | 37 | 38 => Class::AsksEach,
            _ => Class::Asks,
        }
    }
}

// The room is asked for, here and above: the values are lent out of a memory, and what it promises of them is not theirs.
// Lays the operands' values behind the value that was given last.
fn lay(store: &[u32], operands: &[Place], values: &mut Vec<u32>, given: u32)
    requires { length operands.now + 1 ≤ vec_capacity values.old }
    ensures items { values.new.items ≡ given ∷ reads store.now operands.now }
    ensures capacity { vec_capacity values.new ≡ vec_capacity values.old }
{
    values.clear();
    values.push_reserved(given);
    read_all(store, operands, values);
}

// What a host is shown of the values that lie there: the part behind the first, which is this question's alone.
fn shown(values: &[u32]) -> &[u32]
    requires { 1 ≤ length values.now }
    ensures { result.now ≡ drop 1 values.now }
{
    &values[1..]
}

// Asks at a position. The host is shown the operands' values.
fn ask<H: Host>(
    host: &mut H,
    operation: InstructionValue,
    position: u32,
    values: &[u32],
) -> Result<u32, Thrown>
    ensures answers { result ≡ H.answer (H.state host.old) (about operation position values.now) }
    ensures moves { H.state host.new ≡ H.next (H.state host.old) (about operation position values.now) }
{
    let question = Question {
        kind: operation.kind,
        payload: operation.payload,
        position,
    };
    host.ask(question, values)
}

// Asks for each written place, from position 1 on, and stores there. The last answer is given.
fn ask_each<H: Host>(
    host: &mut H,
    store: &mut [u32],
    operation: InstructionValue,
    values: &[u32],
    written: &[Place],
    given: &mut u32,
) -> Result<(), Thrown>
    requires { length written.now ≤ 4096 }
    ensures { AsksEach H.Host operation values.now written.now given.old (H.state host.old) store.old result given.new (H.state host.new) store.new }
{
    for (at, place) in written.iter().enumerate() {
        *given = ask(host, operation, at as u32 + 1, values)?;
        write(store, place.identifier, *given);
    }
    Ok(())
}

// Asks at position 0, and then for each written place. The first answer is given.
fn ask_all<H: Host>(
    host: &mut H,
    store: &mut [u32],
    operation: InstructionValue,
    values: &[u32],
    written: &[Place],
    given: &mut u32,
) -> Result<(), Thrown>
    requires { length written.now ≤ 4096 }
    ensures { AsksAll H.Host operation values.now written.now given.old (H.state host.old) store.old result given.new (H.state host.new) store.new }
{
    let first = ask(host, operation, 0, values)?;
    *given = first;
    ask_each(host, store, operation, values, written, given)?;
    *given = first;
    Ok(())
}

// No method of Machine, here and in what it calls: the values are lent out of its memory while the host and the store change.
pub(crate) fn operate<H: Host>(
    host: &mut H,
    store: &mut [u32],
    operation: InstructionValue,
    operands: &[Place],
    written: &[Place],
    values: &mut Vec<u32>,
    given: &mut u32,
) -> Result<(), Thrown>
    requires written { length written.now ≤ 4096 }
    requires operands { length operands.now ≤ 4096 }
    requires room { 4097 ≤ vec_capacity values.old }
    ensures does { Does H.Host operation operands.now written.now given.old (H.state host.old) store.old result given.new (H.state host.new) store.new }
    ensures capacity { vec_capacity values.new ≡ vec_capacity values.old }
{
    match Class::from(operation.kind) {
        Class::Loads => {
            *given = last_of(store, operands);
        }
        Class::Declares => {
            store_all(store, written, 0);
            *given = 0;
        }
        Class::Stores => {
            *given = last_of(store, operands);
            store_all(store, written, *given);
        }
        Class::AsksEach => {
            lay(store, operands, values, *given);
            let values = shown(values.as_slice());
            return ask_all(host, store, operation, values, written, given);
        }
        Class::Asks => {
            lay(store, operands, values, *given);
            let values = shown(values.as_slice());
            *given = ask(host, operation, 0, values)?;
        }
    }
    Ok(())
}
