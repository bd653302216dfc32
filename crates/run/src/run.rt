// The run of the function that tables hold. It is a loop over the stack, on lent memory; the tables are only read.
ghost use Rattle.std.specs.Prelude.{◌≡◌, ℕ, [], length};
ghost use Rattle.hir.specs.Tables.{function_of};
ghost use Rattle.semantics.specs.Machine.{Result as Part};
ghost use Rattle.run.specs.Turn.{At, Ready, Same};
ghost use Rattle.run.specs.Runs.{Answers, Begun, told};

use crate::frame::{Exit, Frame};
use crate::machine::Machine;
use crate::memory::Memory;
use fault::RunFault;
use hir::tables::Tables;
use host::Host;
use semantics::{Outcome, Ran};

// The largest budget.
pub const LARGEST_BUDGET: u32 = 1_000_000_000;

impl From<Exit> for Outcome {
    ghost from_gives = { λ exit outcome. outcome ≡ told exit };

    fn from(exit: Exit) -> Outcome {
        match exit {
            Exit::Returned(v) => Outcome::Returned(v),
            Exit::Threw(v) => Outcome::Thrown(v),
            Exit::Spent => Outcome::Spent,
            _ => Outcome::Ended,
        }
    }
}

impl Memory {
    // The whole body is left, and nothing is done. The five values are those of a new memory; they stand apart, since the definition of a run names each.
    fn begin(&mut self, tables: &Tables)
        ensures { Begun self.new tables.now }
    {
        self.frames.clear();
        self.frames.push_reserved(Frame::Block {
            rest: tables.root,
            depth: 64,
        });
        self.exit = Exit::Normal;
        self.given = 0;
        self.steps = 0;
        self.entries = 0;
        self.recorded = false;
    }
}

impl<'a, H: Host> Machine<'a, H> {
    // Turns until nothing is left.
    fn go(&mut self)
        requires { (w : Part H.State) × At H.Host w self.old self.old.memory.now.frames.items }
        ensures same { Same self.old self.new }
        ensures empty { self.new.memory.now.frames.items ≡ [] }
        ensures leads { (w : Part H.State) → At H.Host w self.old self.old.memory.now.frames.items → At H.Host w self.new self.new.memory.now.frames.items }
    {
        while let Some(frame) = self.memory.pop() {
            self.turn(frame);
        }
    }
}

// Runs the function against a host, on a store with a value for each identifier.
pub fn run<H: Host>(
    memory: &mut Memory,
    tables: &Tables,
    host: &mut H,
    store: &mut [u32],
    budget: u32,
) -> Result<Ran, RunFault>
    ensures { Answers H.answer H.next H.keeps (function_of tables.now) budget memory.old (H.state host.old) store.old result memory.new (H.state host.new) store.new }
{
    if store.len() < tables.environment.identifiers.vec.len() {
        return Err(RunFault::StoreTooShort);
    }
    if budget > LARGEST_BUDGET {
        return Err(RunFault::BudgetTooLarge);
    }
    memory.begin(tables);
    let mut machine = Machine {
        memory,
        tables,
        host,
        store,
        budget,
    };
    machine.go();
    Ok(Ran {
        outcome: Outcome::from(machine.memory.exit),
        steps: machine.memory.steps,
        entries: machine.memory.entries,
        recorded: machine.memory.recorded,
    })
}
