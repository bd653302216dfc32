// Runs a function file: `run_screen [--number] FILE BUDGET [VALUE ...]`, with the answers of a list host on standard input.
#![tactic(auto)]

mod running;

use crate::running::answer;
use screen::arguments::{ArgumentFault, HostKind, Request, read_request};
use screen::refusal::Usage;
use std::io::Read;
use std::{env, fs};

// Nothing is read for the number host.
fn run_file(rt: &HostRuntime, request: &Request) -> anyhow::Result<()> {
    let heap = rt.alloc();
    let file = fs::read(rt, request.file.as_str())?;
    let mut text = Vec::new(heap);
    if request.host == HostKind::List {
        rt.stdin().read_to_end(&mut text)?;
    }
    rt.print(answer(heap, request, file.as_slice(), text.as_slice())?)?;
    Ok(())
}

fn main(rt: HostRuntime) -> anyhow::Result<()> {
    let heap = rt.alloc();
    let words: Vec<String> = env::args(&rt)?.skip(1).collect(heap)?;
    match read_request(heap, words.as_slice()) {
        Ok(request) => run_file(&rt, &request),
        Err(ArgumentFault::Usage) => Ok(rt.print(Usage)?),
        Err(ArgumentFault::Memory(error)) => Err(error.into()),
    }
}
