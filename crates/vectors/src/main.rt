// Replays files with what a load must answer: `words | ok`, or `words | number layer place`, a line each.
#![tactic(auto)]

ghost use Rattle.std.specs.Prelude.{◌≡◌, false};

use format::fault::LoadFault;
use hir::settled::Settled;
use hir::tables::Tables;
use load::load::load;
use std::fmt;
use std::io::{BufRead, BufReader};
use text::bytes::bytes_of;
use text::read::words;
use write::file::write;

// As many bytes as the longest file has.
const LONGEST: usize = 65536;

// What comes of a file: it is written back as it was, the load refuses it, or the writing fails.
#[derive(Clone, Copy, Debug, PartialEq, Eq)]
enum Outcome {
    Back,
    Refused(LoadFault),
    TooLong,
    WrittenIntoTooLittle,
    RefusedOtherwise,
    WrittenOtherwise,
}

impl fmt::Display for Outcome {
    fn fmt<W: fmt::Write>(&self, f: &mut fmt::Formatter<W>) -> fmt::Result {
        match self {
            Outcome::Back => write!(f, "ok"),
            Outcome::Refused(fault) => {
                write!(f, "{} {} {}", fault.number(), fault.layer(), fault.place())
            }
            Outcome::TooLong => write!(f, "too long"),
            Outcome::WrittenIntoTooLittle => write!(f, "written into too little"),
            Outcome::RefusedOtherwise => write!(f, "refused otherwise"),
            Outcome::WrittenOtherwise => write!(f, "written otherwise"),
        }
    }
}

// Writes the function: first into a buffer that is a byte too small, which is refused with 14, then into one that holds it.
fn written(settled: Settled, tables: &Tables, bytes: &[u8], out: &mut [u8]) -> Outcome
    requires { tables.now.draft ≡ false }
{
    if bytes.is_empty() || out.len() < bytes.len() {
        return Outcome::TooLong;
    }
    let Err(refused) = write(settled, tables, &mut out[..bytes.len() - 1]) else {
        return Outcome::WrittenIntoTooLittle;
    };
    if refused.fault.number() != 14 {
        return Outcome::RefusedOtherwise;
    }
    match write(refused.settled, tables, out) {
        Ok(length) if length == bytes.len() && &out[..length] == bytes => Outcome::Back,
        _ => Outcome::WrittenOtherwise,
    }
}

// Loads the bytes, and writes them back where they are a function.
fn answer(tables: &mut Tables, bytes: &[u8], out: &mut [u8]) -> Outcome {
    match load(tables, bytes) {
        Err(fault) => Outcome::Refused(fault),
        Ok(settled) => written(settled, tables, bytes, out),
    }
}

fn main(rt: HostRuntime) -> anyhow::Result<()> {
    let heap = rt.alloc();
    let mut tables = Tables::new(heap)?;
    let mut out = vec![in heap; 0u8; LONGEST]?;
    let mut back = 0u32;
    let mut refused = 0u32;
    let mut wrong = 0u32;
    for line in BufReader::new(heap, rt.stdin())?.lines(heap) {
        let line = line?;
        let Some((line_words, expected)) = line.as_str().split_once('|') else {
            continue;
        };
        let Ok(said) = words(heap, line_words.as_bytes()) else {
            continue;
        };
        let bytes = bytes_of(heap, said.as_slice())?;
        let answered = answer(&mut tables, bytes.as_slice(), out.as_mut_slice());
        if answered.to_string(heap)?.as_str() != expected.trim() {
            println!(rt; "{answered}: {line}")?;
            wrong = wrong.saturating_add(1);
        } else if answered == Outcome::Back {
            back = back.saturating_add(1);
        } else {
            refused = refused.saturating_add(1);
        }
    }
    println!(rt;
        "{back} files written back as they were, {refused} refused as listed, {wrong} otherwise"
    )?;
    Ok(())
}
