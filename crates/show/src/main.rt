// Reads a function file from standard input, and prints its sections, a line each, or the number of its refusal.
#![tactic(auto)]

mod showing;

use crate::showing::show;
use std::io;
use std::io::Read;

fn main(rt: HostRuntime) -> io::Result<()> {
    let heap = rt.alloc();
    let mut file = Vec::new(heap);
    rt.stdin().read_to_end(&mut file)?;
    rt.print(show(heap, file.as_slice())?)
}
