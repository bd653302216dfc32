// Replays runs. A line `function WORDS` names a function file; a line `list BUDGET | STORE | ANSWERS | RESULT` or
// `number BUDGET | STORE | | RESULT` is a run of the function above it. Lines that begin otherwise are passed over.
#![tactic(auto)]

use fault::RunFault;
use hir::tables::Tables;
use host::{ListHost, NumberHost};
use load::load::load;
use run::memory::Memory;
use run::run::run;
use screen::arguments::HostKind;
use screen::unused::unused;
use semantics::Ran;
use std::alloc::{AllocError, Global};
use std::io::{BufRead, BufReader};
use text::bytes::bytes_of;
use text::line::Words;
use text::read::words;

#[derive(Drop)]
struct Case<'a> {
    host: HostKind,
    budget: u32,
    store: Vec<u32>,
    answers: Vec<u32>,
    expected: &'a str,
}

#[derive(Default, Drop)]
struct Counts {
    functions: u32,
    runs: u32,
    wrong: u32,
}

// Decimal words; a text that is none says nothing.
fn numbers(heap: Global, text: &str) -> Vec<u32> {
    words(heap, text.as_bytes()).unwrap_or(Vec::new(heap))
}

// What the data says of a run, on one line.
fn told(
    heap: Global,
    ran: Result<Ran, RunFault>,
    store: &[u32],
    left: usize,
) -> Result<String, AllocError> {
    match ran {
        Ok(
            Ran {
                outcome,
                steps,
                entries,
                recorded,
            },
        ) => format!(in heap;
            "{outcome}; steps {steps}; entries {entries}; record {}; store {}; unused {left}",
            u8::from(recorded),
            Words(store)
        ),
        Err(fault) => format!(in heap; "refused {}", fault.number()),
    }
}

// The case of a line that is cut at its bars.
fn case_of(heap: Global, line: &str) -> Option<Case<'_>> {
    let (asked, rest) = line.split_once('|')?;
    let (store, rest) = rest.split_once('|')?;
    let (answers, expected) = rest.split_once('|')?;
    let (host, budget) = asked.trim().split_once(' ')?;
    Some(Case {
        host: match host {
            "number" => HostKind::Number,
            "list" => HostKind::List,
            _ => return None,
        },
        budget: *numbers(heap, budget).first()?,
        store: numbers(heap, store),
        answers: numbers(heap, answers),
        expected: expected.trim(),
    })
}

fn answer(
    heap: Global,
    memory: &mut Memory,
    tables: &Tables,
    case: &mut Case,
) -> Result<String, AllocError> {
    let store = case.store.as_mut_slice();
    // A match: only a list has answers left, and a trait that tells them could not name the state of Host.
    let (ran, left) = match case.host {
        HostKind::Number => (run(memory, tables, &mut NumberHost, store, case.budget), 0),
        HostKind::List => {
            let mut host = ListHost::new(case.answers.as_slice());
            let ran = run(memory, tables, &mut host, store, case.budget);
            (ran, unused(&host))
        }
    };
    told(heap, ran, store, left)
}

// A line of the data, after the function of which it speaks has been loaded.
fn replay(
    rt: &HostRuntime,
    memory: &mut Memory,
    tables: &Tables,
    counts: &mut Counts,
    line: &str,
) -> anyhow::Result<()> {
    let heap = rt.alloc();
    let Some(mut case) = case_of(heap, line) else {
        return Ok(());
    };
    let answered = answer(heap, memory, tables, &mut case)?;
    if answered.as_str() == case.expected {
        counts.runs = counts.runs.saturating_add(1);
    } else {
        counts.wrong = counts.wrong.saturating_add(1);
        println!(rt; "{answered} and not: {line}")?;
    }
    Ok(())
}

fn main(rt: HostRuntime) -> anyhow::Result<()> {
    let heap = rt.alloc();
    let mut tables = Tables::new(heap)?;
    let mut memory = Memory::new(heap)?;
    let mut counts = Counts::default();
    for line in BufReader::new(heap, rt.stdin())?.lines(heap) {
        let line = line?;
        match line.as_str().strip_prefix("function ") {
            None => replay(&rt, &mut memory, &tables, &mut counts, line.as_str())?,
            Some(said) => {
                let bytes = bytes_of(heap, numbers(heap, said).as_slice())?;
                match load(&mut tables, bytes.as_slice()) {
                    Ok(_) => counts.functions = counts.functions.saturating_add(1),
                    Err(_) => println!(rt; "refused: {said}")?,
                }
            }
        }
    }
    let Counts {
        functions,
        runs,
        wrong,
    } = counts;
    println!(rt; "{functions} functions, {runs} runs as listed, {wrong} otherwise")?;
    Ok(())
}
