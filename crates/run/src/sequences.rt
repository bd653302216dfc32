// The turns of what a value leaves: a sequence's instructions, what takes a value, what tests one.
ghost use Rattle.std.specs.Prelude.{◌≡◌};
ghost use Rattle.run.specs.declared.frame.Exit.TheVariants.{Normal};
ghost use Rattle.run.specs.Turn.{Due, Ready, Same, Turns};
ghost use Rattle.run.specs.declared.frame.Frame.TheVariants.{Assigns as AssignsFrame, Instructions as InstructionsFrame, AfterLeft as AfterLeftFrame, AfterTest as AfterTestFrame};

use crate::ask::ask_test;
use crate::frame::Frame;
use crate::machine::Machine;
use crate::store::assign;
use hir::place::Place;
use hir::range::Range;
use host::Host;

impl<'a, H: Host> Machine<'a, H> {
    pub(crate) fn on_instructions(&mut self, rest: Range, depth: u32)
        requires { Due H.Host self.old (InstructionsFrame rest depth) }
        ensures same { Same self.old self.new }
        ensures turns { Turns H.Host self.old (InstructionsFrame rest depth) self.new }
    {
        if rest.count == 0 {
            return;
        }
        let instruction = self.tables.arena.inner.instructions.table.at(rest.start);
        if !self.memory.pay(self.budget) {
            return;
        }
        let rest = rest.behind(1);
        self.memory.push(Frame::Instructions { rest, depth });
        self.memory.push(Frame::Assigns {
            place: instruction.lvalue,
        });
        self.memory.push(Frame::Value {
            slot: instruction.value,
            depth,
        });
    }

    pub(crate) fn on_assigns(&mut self, place: Option<Place>)
        requires normal { self.old.memory.now.exit ≡ Normal }
        requires ready { Ready H.Host self.old (AssignsFrame place) }
        ensures same { Same self.old self.new }
        ensures turns { Turns H.Host self.old (AssignsFrame place) self.new }
    {
        assign(self.store, place, self.memory.given);
    }

    pub(crate) fn on_after_left(&mut self, payload: u32, right: u32, depth: u32)
        requires { Due H.Host self.old (AfterLeftFrame payload right depth) }
        ensures same { Same self.old self.new }
        ensures turns { Turns H.Host self.old (AfterLeftFrame payload right depth) self.new }
    {
        let reply = ask_test(self.host, payload, self.memory.given);
        let Some(v) = self.memory.answered(reply) else {
            return;
        };
        if v != 0 {
            self.memory.given = v;
            self.memory.push(Frame::Value { slot: right, depth });
        }
    }

    pub(crate) fn on_after_test(&mut self, consequent: u32, alternate: u32, depth: u32)
        requires { Due H.Host self.old (AfterTestFrame consequent alternate depth) }
        ensures same { Same self.old self.new }
        ensures turns { Turns H.Host self.old (AfterTestFrame consequent alternate depth) self.new }
    {
        let reply = ask_test(self.host, 0, self.memory.given);
        let Some(v) = self.memory.answered(reply) else {
            return;
        };
        self.memory.given = v;
        let slot = if v != 0 { consequent } else { alternate };
        self.memory.push(Frame::Value { slot, depth });
    }
}
