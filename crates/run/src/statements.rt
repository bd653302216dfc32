// The turns of blocks and of their statements but terminals.
ghost use Rattle.std.specs.Prelude.{◌≡◌, Some};
ghost use Rattle.hir.specs.Options.{nth};
ghost use Rattle.run.specs.declared.frame.Exit.TheVariants.{Normal};
ghost use Rattle.run.specs.Turn.{Due, Ready, Same, Turns};
ghost use Rattle.hir.specs.declared.statement.ReactiveStatement.TheVariants.{Scope as ScopeStatement};
ghost use Rattle.run.specs.declared.frame.Frame.TheVariants.{Block as BlockFrame, Statement as StatementFrame, Leaves as LeavesFrame};
ghost use Rattle.hir.specs.Tables.{function_of};
ghost use Rattle.semantics.specs.Exec.{records_of};

use crate::frame::{Exit, Frame};
use crate::machine::Machine;
use hir::range::Range;
use hir::statement::{ReactiveScopeBlock, ReactiveStatement};
use hir::tables::Tables;
use host::Host;

// The place that a scope's record names.
fn record_of(tables: &Tables, scope: u32) -> Option<u32>
    ensures { result ≡ records_of (function_of tables.now).scopes scope }
{
    let scope = tables.environment.scopes.vec.get(scope as usize)?;
    let record = scope.early?;
    Some(record.value)
}

impl<'a, H: Host> Machine<'a, H> {
    pub(crate) fn on_block(&mut self, rest: Range, depth: u32)
        requires { Due H.Host self.old (BlockFrame rest depth) }
        ensures same { Same self.old self.new }
        ensures turns { Turns H.Host self.old (BlockFrame rest depth) self.new }
    {
        if rest.count == 0 {
            return;
        }
        let slot = self.tables.arena.entries.table.at(rest.start);
        if !self.memory.pay(self.budget) {
            return;
        }
        let rest = rest.behind(1);
        self.memory.push(Frame::Block { rest, depth });
        self.memory.push(Frame::Statement {
            slot,
            depth: depth - 1,
        });
    }

    pub(crate) fn on_statement(&mut self, slot: u32, depth: u32)
        requires { Due H.Host self.old (StatementFrame slot depth) }
        ensures same { Same self.old self.new }
        ensures turns { Turns H.Host self.old (StatementFrame slot depth) self.new }
    {
        match self.tables.arena.statements.at(slot) {
            ReactiveStatement::Instruction(i) => {
                self.memory.push(Frame::Assigns { place: i.lvalue });
                self.memory.push(Frame::Value {
                    slot: i.value,
                    depth: 64,
                });
            }
            ReactiveStatement::Terminal(t) => self.on_terminal(slot, depth, t),
            ReactiveStatement::Scope(b) => self.on_scope(slot, depth, b),
            ReactiveStatement::PrunedScope(b) => {
                self.memory.push(Frame::Block {
                    rest: b.instructions,
                    depth,
                });
            }
        }
    }

    fn on_scope(&mut self, slot: u32, depth: u32, block: ReactiveScopeBlock)
        requires due { Due H.Host self.old (StatementFrame slot depth) }
        requires here { nth self.old.tables.now.arena.statements.vec.items slot ≡ Some (ScopeStatement block) }
        ensures same { Same self.old self.new }
        ensures turns { Turns H.Host self.old (StatementFrame slot depth) self.new }
    {
        let recorded = record_of(self.tables, block.scope);
        self.memory.entries += u32::from(recorded.is_some());
        self.memory.push(Frame::Leaves { recorded });
        self.memory.push(Frame::Block {
            rest: block.instructions,
            depth,
        });
    }

    pub(crate) fn on_leaves(&mut self, recorded: Option<u32>)
        requires normal { self.old.memory.now.exit ≡ Normal }
        requires ready { Ready H.Host self.old (LeavesFrame recorded) }
        ensures same { Same self.old self.new }
        ensures turns { Turns H.Host self.old (LeavesFrame recorded) self.new }
    {
        if let Some(place) = recorded {
            let value = self.look(place);
            if value != 1 {
                self.memory.exit = Exit::Returned(value);
                self.memory.recorded = true;
            }
        }
    }
}
