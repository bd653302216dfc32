// The sections of the counters, the identifiers and the scopes; each is read to its end.
ghost use Rattle.std.specs.Prelude.{◌≡◌, Err, IfOk, MatchResult};
ghost use Rattle.format.specs.Parse.{every, times, counters as counters_item, identifier as identifier_item, scope_info, declaration as declaration_item};
ghost use Rattle.load.specs.Environments.{TablesRoom, IdentifiersIn, DeclarationsIn, ScopeIn, ScopesIn, Owners};
ghost use Rattle.load.specs.Files.{whole, CountersRead, IdentifiersRead, ScopesRead};
ghost use Rattle.load.specs.Reads.{cursor};

use crate::reader::Reader;
use format::fault::FileFault;
use hir::environment::{Declared, Environment, ReactiveScope};
use hir::used::Used;

pub(crate) fn read_counters(
    environment: &mut Environment,
    mut reader: Reader,
) -> Result<Used, FileFault>
    ensures { MatchResult result (CountersRead environment.old environment.new (cursor reader.entry)) (λ e. whole counters_item (cursor reader.entry) ≡ Err e) }
{
    environment.counters = reader.item()?;
    reader.finish()
}

pub fn read_identifiers(
    environment: &mut Environment,
    reader: &mut Reader,
) -> Result<Used, FileFault>
    requires { TablesRoom environment.old reader.old.used }
    ensures answer { MatchResult result (IdentifiersRead environment.old environment.new (cursor reader.old)) (λ e. every identifier_item (cursor reader.old) ≡ Err e) }
    ensures reads { IfOk result (λ _. IdentifiersIn environment.old environment.new (cursor reader.old) (cursor reader.new)) }
{
    'items: while !reader.ended() {
        let identifier = reader.item()?;
        environment.identifiers.add(identifier);
    }
    Ok(reader.used)
}

#[tactic(auto, unfolding(format::specs::Parse::scope_info))]
fn read_scope(environment: &mut Environment, reader: &mut Reader) -> Result<(), FileFault>
    requires { TablesRoom environment.old reader.old.used }
    ensures { MatchResult result (λ _. ScopeIn environment.old environment.new (cursor reader.old) (cursor reader.new)) (λ e. scope_info (cursor reader.old) ≡ Err e) }
{
    reader.begin_scope()?;
    let early = reader.item()?;
    let count = reader.word()?;
    let owner = environment.scopes.vec.len() as u32;
    read_declarations(environment, reader, owner, count)?;
    environment.scopes.add(ReactiveScope { early });
    Ok(())
}

// A scope's list, each declaration with its owner.
fn read_declarations(
    environment: &mut Environment,
    reader: &mut Reader,
    owner: u32,
    count: u32,
) -> Result<(), FileFault>
    requires { TablesRoom environment.old reader.old.used }
    ensures { MatchResult result (λ _. DeclarationsIn owner count environment.old environment.new (cursor reader.old) (cursor reader.new)) (λ e. times declaration_item count (cursor reader.old) ≡ Err e) }
{
    // A loop of its own: each declaration takes its owner along.
    for _ in 0..count {
        let declaration = reader.item()?;
        environment
            .declarations
            .add(Declared { owner, declaration });
    }
    Ok(())
}

pub fn read_scopes(environment: &mut Environment, reader: &mut Reader) -> Result<Used, FileFault>
    requires room { TablesRoom environment.old reader.old.used }
    requires owners { Owners environment.old }
    ensures answer { MatchResult result (ScopesRead environment.old environment.new (cursor reader.old)) (λ e. every scope_info (cursor reader.old) ≡ Err e) }
    ensures reads { IfOk result (λ _. ScopesIn environment.old environment.new (cursor reader.old) (cursor reader.new)) }
{
    'items: while !reader.ended() {
        read_scope(environment, reader)?;
    }
    Ok(reader.used)
}
