// What the program is asked: `[--number] FILE BUDGET [VALUE ...]`, the words behind its name.
ghost use Rattle.std.specs.Prelude.{◌≡◌, alloc_error, map, string_bytes};
ghost use Rattle.screen.specs.Arguments.{AsksAfter, Asks, Numbers};
ghost use Rattle.screen.specs.declared.arguments.ArgumentFault.TheVariants.{Memory};

use crate::number::number;
use std::alloc::{AllocError, AllocFailed, Global};

// The host that answers a run's questions: a list of answers, or numbers.
#[derive(Clone, Copy, Debug, PartialEq, Eq, Hash)]
pub enum HostKind {
    List,
    Number,
}

#[derive(Drop)]
pub struct Request {
    pub host: HostKind,
    pub file: String,
    pub budget: u32,
    pub values: Vec<u32>,
}

// Not as the usage says, or no memory.
#[derive(Clone, Copy, Debug, PartialEq, Eq)]
pub enum ArgumentFault {
    Usage,
    Memory(AllocError),
}

impl From<AllocError> for ArgumentFault {
    ghost from_gives = { λ error fault. fault ≡ Memory error };

    fn from(error: AllocError) -> ArgumentFault {
        ArgumentFault::Memory(error)
    }
}

impl<T: Drop> From<AllocFailed<T>> for ArgumentFault {
    ghost from_gives = { λ _ fault. fault ≡ Memory alloc_error };

    fn from(error: AllocFailed<T>) -> ArgumentFault {
        AllocError::from(error).into()
    }
}

fn numbers(heap: Global, words: &[String]) -> Result<Vec<u32>, ArgumentFault>
    ensures { Numbers (map string_bytes words.now) result }
{
    let mut values = Vec::new(heap);
    for word in words {
        values.push(number(word.as_bytes()).ok_or(ArgumentFault::Usage)?)?;
    }
    Ok(values)
}

// The words behind the flag.
fn read_after(heap: Global, host: HostKind, words: &[String]) -> Result<Request, ArgumentFault>
    ensures { AsksAfter host (map string_bytes words.now) result }
{
    let [file, budget, values @ ..] = words else {
        return Err(ArgumentFault::Usage);
    };
    let budget = number(budget.as_bytes()).ok_or(ArgumentFault::Usage)?;
    let values = numbers(heap, values)?;
    Ok(Request {
        host,
        file: file.clone()?,
        budget,
        values,
    })
}

pub fn read_request(heap: Global, words: &[String]) -> Result<Request, ArgumentFault>
    ensures { Asks (map string_bytes words.now) result }
{
    match words {
        [flag, rest @ ..] if flag.as_str() == "--number" => read_after(
            heap,
            HostKind::Number,
            rest,
        ),
        _ => read_after(heap, HostKind::List, words),
    }
}
