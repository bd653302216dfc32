// The text that is printed for what is asked, a file and the text of the answers.
ghost use Rattle.std.specs.Prelude.{◌≡◌, IfOk, string_bytes};
ghost use Rattle.hir.specs.Tables.{function_of};
ghost use Rattle.screen.specs.Arguments.{held};
ghost use Rattle.run_screen.specs.Running.{lines_for, ran_lines, Answers, Screens};

use fault::RunFault;
use hir::tables::Tables;
use host::{ListHost, NumberHost};
use load::load::load;
use run::memory::Memory;
use run::run::run;
use screen::arguments::{HostKind, Request};
use screen::refusal::Refusal;
use screen::said::Report;
use screen::store::start_store;
use screen::unused::unused;
use semantics::Ran;
use std::alloc::{AllocError, Global};
use text::character::TextFault;
use text::read::words;

fn told(
    heap: Global,
    ran: Result<Ran, RunFault>,
    store: &[u32],
    unused: usize,
) -> Result<String, AllocError>
    ensures { IfOk result (λ s. string_bytes s ≡ ran_lines ran store.now unused) }
{
    match ran {
        Ok(ran) => Report { ran, store, unused }.to_string(heap),
        Err(fault) => Refusal::Run(fault).to_string(heap),
    }
}

// Runs what the tables hold, on a store that has a value for each identifier.
fn run_loaded(
    heap: Global,
    tables: &Tables,
    request: &Request,
    answers: &[u32],
) -> Result<String, AllocError>
    ensures { IfOk result (λ s. string_bytes s ≡ lines_for (held request.now) answers.now (function_of tables.now)) }
{
    let identifiers = tables.environment.identifiers.vec.len();
    let mut store = start_store(heap, request.values.as_slice(), identifiers)?;
    let store = store.as_mut_slice();
    let mut memory = Memory::new(heap)?;
    // A match: only a list has answers left, and a trait that tells them could not name the state of Host.
    match request.host {
        HostKind::Number => {
            let ran = run(&mut memory, tables, &mut NumberHost, store, request.budget);
            told(heap, ran, store, 0)
        }
        HostKind::List => {
            let mut host = ListHost::new(answers);
            let ran = run(&mut memory, tables, &mut host, store, request.budget);
            let left = unused(&host);
            told(heap, ran, store, left)
        }
    }
}

fn run_bytes(
    heap: Global,
    request: &Request,
    bytes: &[u8],
    answers: &[u32],
) -> Result<String, AllocError>
    ensures { IfOk result (λ s. Answers bytes.now (lines_for (held request.now) answers.now) (string_bytes s)) }
{
    let mut tables = Tables::new(heap)?;
    match load(&mut tables, bytes) {
        Ok(_) => run_loaded(heap, &tables, request, answers),
        Err(fault) => Refusal::Load(fault).to_string(heap),
    }
}

// What is wrong with the text of the answers is said first, then what is wrong with the file.
pub(crate) fn answer(
    heap: Global,
    request: &Request,
    bytes: &[u8],
    text: &[u8],
) -> Result<String, AllocError>
    ensures { IfOk result (λ s. Screens (held request.now) bytes.now text.now (string_bytes s)) }
{
    match words(heap, text) {
        Ok(answers) => run_bytes(heap, request, bytes, answers.as_slice()),
        Err(TextFault::Memory(error)) => Err(error),
        Err(fault) => format!(in heap; "{fault}\n"),
    }
}
