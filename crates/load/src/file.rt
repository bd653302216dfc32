// The four sections of a file, one after another.
ghost use Rattle.std.specs.Prelude.{◌≡◌, ◌≤◌, length, Err, MatchResult};
ghost use Rattle.format.specs.Parse.{block, parse};
ghost use Rattle.format.specs.Words.{words};
ghost use Rattle.load.specs.Files.{whole, BodyRead, NoneIn, NoSlots, FileIn, EndsIn};
ghost use Rattle.load.specs.Reads.{cursor};

use crate::read_tables::{read_counters, read_identifiers, read_scopes};
use crate::reader::Reader;
use crate::section::{read_pair, section};
use format::fault::FileFault;
use hir::arena::Arena;
use hir::environment::Environment;
use hir::range::Range;
use hir::used::{UNUSED, Used};

// The block that is the whole body, and the slots that are used.
#[derive(Clone, Copy)]
pub struct Found {
    pub root: Range,
    pub used: Used,
}

fn read_body(arena: &mut Arena, mut reader: Reader) -> Result<Found, FileFault>
    requires { NoSlots arena.old }
    ensures { MatchResult result (λ f. BodyRead arena.new (cursor reader.entry) f.root f.used) (λ e. whole (block 64) (cursor reader.entry) ≡ Err e) }
{
    let root = reader.read_block(arena, 64)?;
    let used = reader.finish()?;
    Ok(Found { root, used })
}

// Where each section ends. No invariant: the order is told once, to who makes the sections.
#[derive(Clone, Copy)]
pub struct Ends {
    pub counters: u32,
    pub identifiers: u32,
    pub scopes: u32,
    pub body: u32,
}

// The bounds are asked here and by `read_words`: a type for such bytes would ask more of who calls that.
fn read_ends(bytes: &[u8]) -> Result<Ends, FileFault>
    requires long { 48 ≤ length bytes.now }
    requires near { length bytes.now ≤ 65536 }
    ensures { MatchResult result (λ e. EndsIn (words bytes.now) e.counters e.identifiers e.scopes e.body) (λ e. parse (words bytes.now) ≡ Err e) }
{
    let total = (bytes.len() / 4) as u32;
    let counters = read_pair(bytes, 0, false, 8, total)?;
    let identifiers = read_pair(bytes, 2, false, counters, total)?;
    let scopes = read_pair(bytes, 4, false, identifiers, total)?;
    let body = read_pair(bytes, 6, true, scopes, total)?;
    Ok(Ends {
        counters,
        identifiers,
        scopes,
        body,
    })
}

// Reads the words of a file into tables without a slot in use.
// The environment and the arena are lent one by one: a struct of the two loans would have to say after each call that both are still the same.
pub fn read_words(
    environment: &mut Environment,
    arena: &mut Arena,
    bytes: &[u8],
) -> Result<Found, FileFault>
    requires long { 48 ≤ length bytes.now }
    requires near { length bytes.now ≤ 65536 }
    requires none { NoneIn environment.old }
    requires slots { NoSlots arena.old }
    ensures { MatchResult result (λ f. FileIn environment.new arena.new (words bytes.now) f.root f.used) (λ e. parse (words bytes.now) ≡ Err e) }
{
    let ends = read_ends(bytes)?;
    let counters = section(bytes, 8, ends.counters, UNUSED);
    let first = read_counters(environment, counters)?;
    let mut identifiers = section(bytes, ends.counters, ends.identifiers, first);
    let second = read_identifiers(environment, &mut identifiers)?;
    let mut scopes = section(bytes, ends.identifiers, ends.scopes, second);
    let third = read_scopes(environment, &mut scopes)?;
    read_body(arena, section(bytes, ends.scopes, ends.body, third))
}
