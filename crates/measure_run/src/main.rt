// Times runs that are spent: `measure_run FILE BUDGET TURNS` prints the nanoseconds of a run on the number host from a store
// of zeros, best of so many.
#![tactic(auto)]

use anyhow::Context;
use hir::tables::Tables;
use host::NumberHost;
use load::load::load;
use run::memory::Memory;
use run::run::run;
use semantics::Outcome;
use std::time::Instant;
use std::{env, fs};

const REFUSED: &str = "the file is refused, or its run ends";

// An argument that is not there is 0.
fn number(word: Option<String>) -> anyhow::Result<u32> {
    Ok(word.map_or(Ok(0), |word| word.as_str().parse::<u32>())?)
}

fn main(rt: HostRuntime) -> anyhow::Result<()> {
    let heap = rt.alloc();
    let mut arguments = env::args(&rt)?.skip(1);
    let file = arguments
        .next()
        .context("usage: measure_run FILE BUDGET TURNS")?;
    let budget = number(arguments.next())?;
    let turns = number(arguments.next())?;
    let bytes = fs::read(&rt, file.as_str())?;
    let mut tables = Tables::new(heap)?;
    load(&mut tables, bytes.as_slice()).ok().context(REFUSED)?;
    let mut memory = Memory::new(heap)?;
    let mut best = None;
    for _ in 0..turns {
        let mut store = vec![in heap; 0u32; tables.environment.identifiers.vec.len()]?;
        let begin = Instant::now(&rt)?;
        run(
            &mut memory,
            &tables,
            &mut NumberHost,
            store.as_mut_slice(),
            budget,
        )
        .ok()
        .filter(|ran| ran.outcome == Outcome::Spent)
        .context(REFUSED)?;
        let took = begin.elapsed(&rt)?.as_nanos();
        best = Some(best.map_or(took, |best: u128| best.min(took)));
    }
    match best {
        Some(best) => println!(rt; "{best}")?,
        None => println!(rt; "no turn")?,
    }
    Ok(())
}
