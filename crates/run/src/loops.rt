// The turns of loops.
ghost use Rattle.run.specs.Turn.{Due, Same, Turns};
ghost use Rattle.run.specs.declared.frame.Frame.TheVariants.{Starts as StartsFrame, Rounds as RoundsFrame, Tests as TestsFrame};

use crate::ask::ask_test;
use crate::frame::{Exit, Frame, Loop};
use crate::machine::Machine;
use host::Host;

impl<'a, H: Host> Machine<'a, H> {
    pub(crate) fn on_starts(&mut self, repeated: Loop, label: Option<u32>, depth: u32)
        requires { Due H.Host self.old (StartsFrame repeated label depth) }
        ensures same { Same self.old self.new }
        ensures turns { Turns H.Host self.old (StartsFrame repeated label depth) self.new }
    {
        self.memory.push(Frame::EndsLoop { label });
        self.memory.push(Frame::Rounds {
            repeated,
            label,
            depth,
        });
    }

    pub(crate) fn on_rounds(&mut self, repeated: Loop, label: Option<u32>, depth: u32)
        requires { Due H.Host self.old (RoundsFrame repeated label depth) }
        ensures same { Same self.old self.new }
        ensures turns { Turns H.Host self.old (RoundsFrame repeated label depth) self.new }
    {
        if !self.memory.pay(self.budget) {
            return;
        }
        self.memory.push(Frame::Rounds {
            repeated,
            label,
            depth,
        });
        self.memory.push(Frame::Tests {
            repeated,
            label,
            depth,
        });
        self.memory.push(Frame::Value {
            slot: repeated.test(),
            depth: 64,
        });
        if let Loop::BlockFirst { block, .. } = repeated {
            self.memory.push_round(label, block, depth);
        }
    }

    pub(crate) fn on_tests(&mut self, repeated: Loop, label: Option<u32>, depth: u32)
        requires { Due H.Host self.old (TestsFrame repeated label depth) }
        ensures same { Same self.old self.new }
        ensures turns { Turns H.Host self.old (TestsFrame repeated label depth) self.new }
    {
        let reply = ask_test(self.host, 0, self.memory.given);
        let Some(v) = self.memory.answered(reply) else {
            return;
        };
        self.memory.given = v;
        if v == 0 {
            self.memory.exit = Exit::Broke(None);
            return;
        }
        match repeated {
            Loop::TestFirst { block, .. } => self.memory.push_round(label, block, depth),
            Loop::BlockFirst { .. } => {}
            Loop::Updating { update, block, .. } => {
                self.memory.push_update(update);
                self.memory.push_round(label, block, depth);
            }
        }
    }
}
