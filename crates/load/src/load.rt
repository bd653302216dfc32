// Loads a file into tables: any bytes, of any length.
ghost use Rattle.std.specs.Prelude.{◌≡◌, ◌≤◌, false, length, Ok, Err, MatchResult};
ghost use Rattle.hir.specs.Held.{held};
ghost use Rattle.hir.specs.Tree.{no_counters};
ghost use Rattle.format.specs.Parse.{parse_file};
ghost use Rattle.format.specs.Words.{words};
ghost use Rattle.load.specs.Files.{NoneIn, NoSlots, FileIn};
ghost use Rattle.load.specs.Loads.{Loads, Refused, PartsIn};

use crate::file::{Found, read_words};
use format::fault::{FileFault, LoadFault};
use hir::arena::Arena;
use hir::environment::Environment;
use hir::range::EMPTY;
use hir::settled::Settled;
use hir::tables::Tables;
use hir::used::UNUSED;
use questions::check;

// Makes the parts of tables empty.
fn clear_parts(environment: &mut Environment, arena: &mut Arena)
    ensures counters { environment.new.counters ≡ no_counters }
    ensures none { NoneIn environment.new }
    ensures slots { NoSlots arena.new }
{
    environment.clear();
    arena.clear();
}

// How long a file may be, in bytes.
const SHORTEST: usize = 48;

const LONGEST: usize = 65536;

// Reads a file of whole words, neither too short nor too long.
#[tactic(auto, unfolding(format::specs::Parse::parse_file))]
fn read_file(
    environment: &mut Environment,
    arena: &mut Arena,
    bytes: &[u8],
) -> Result<Found, FileFault>
    requires none { NoneIn environment.old }
    requires slots { NoSlots arena.old }
    ensures { MatchResult result (λ f. FileIn environment.new arena.new (words bytes.now) f.root f.used × (parse_file bytes.now ≡ Ok (held environment.new arena.new f.root)) × (length bytes.now ≤ 65536)) (λ e. parse_file bytes.now ≡ Err e) }
{
    if bytes.len() % 4 != 0 || bytes.len() < SHORTEST || bytes.len() > LONGEST {
        return Err(FileFault::Length);
    }
    read_words(environment, arena, bytes)
}

// Reads a file, and asks whether its function is sound.
fn read_sound(
    environment: &mut Environment,
    arena: &mut Arena,
    bytes: &[u8],
) -> Result<Found, LoadFault>
    requires none { NoneIn environment.old }
    requires slots { NoSlots arena.old }
    ensures { MatchResult result (λ f. PartsIn environment.new arena.new bytes.now f.root f.used) (Refused bytes.now) }
{
    let found = read_file(environment, arena, bytes)?;
    check(environment, arena, found.root)?;
    Ok(found)
}

// Loads the file `bytes`. After a refusal the tables are empty.
pub fn load(tables: &mut Tables, bytes: &[u8]) -> Result<Settled, LoadFault>
    ensures answer { Loads bytes.now tables.new result }
    ensures draft { tables.new.draft ≡ false }
{
    clear_parts(&mut tables.environment, &mut tables.arena);
    // As new tables, but in place: new ones would take memory.
    tables.root = EMPTY;
    tables.used = UNUSED;
    tables.words = 12;
    tables.draft = false;
    match read_sound(&mut tables.environment, &mut tables.arena, bytes) {
        Ok(found) => {
            tables.root = found.root;
            tables.used = found.used;
            tables.words = (bytes.len() / 4) as u32;
            Ok(Settled { edits: 0 })
        }
        Err(fault) => {
            clear_parts(&mut tables.environment, &mut tables.arena);
            Err(fault)
        }
    }
}
