// Times loads with writes: `measure load FILE ROUNDS` prints the nanoseconds that a round took, best of several.
#![tactic(auto)]

use anyhow::Context;
use hir::tables::Tables;
use rewrite::rewrite;
use std::time::Instant;
use std::{env, fs};

const LONGEST: usize = 65536;

fn main(rt: HostRuntime) -> anyhow::Result<()> {
    let heap = rt.alloc();
    let mut arguments = env::args(&rt)?.skip(2);
    let file = arguments.next().context("usage: measure load FILE ROUNDS")?;
    let rounds = arguments
        .next()
        .map_or(Ok(0), |count| count.as_str().parse::<u32>())?;
    let bytes = fs::read(&rt, file.as_str())?;
    let mut tables = Tables::new(heap)?;
    let mut out = vec![in heap; 0u8; LONGEST]?;
    let mut best = u128::MAX;
    for _ in 0..7u8 {
        let begin = Instant::now(&rt)?;
        for _ in 0..rounds {
            rewrite(&mut tables, bytes.as_slice(), out.as_mut_slice())
                .ok()
                .context("the file is refused")?;
        }
        best = best.min(begin.elapsed(&rt)?.as_nanos());
    }
    match best.checked_div(u128::from(rounds)) {
        Some(each) => println!(rt; "{each}")?,
        None => println!(rt; "no round")?,
    }
    Ok(())
}
