// One turn of a run: the frame on top of the stack is taken off, and gives way to its parts or to nothing.
ghost use Rattle.std.specs.Prelude.{◌≡◌};
ghost use Rattle.run.specs.declared.frame.Exit.TheVariants.{Normal};
ghost use Rattle.run.specs.Turn.{Ready, Same, Turns};

use crate::frame::{Exit, Frame};
use crate::machine::Machine;
use host::Host;

impl<'a, H: Host> Machine<'a, H> {
    // What is before the frame ended normally.
    fn on_normal(&mut self, frame: Frame)
        requires normal { self.old.memory.now.exit ≡ Normal }
        requires ready { Ready H.Host self.old frame }
        ensures same { Same self.old self.new }
        ensures turns { Turns H.Host self.old frame self.new }
    {
        // what is left is stored between two turns, and a closure would have to be stored on the heap
        match frame {
            Frame::Block { rest, depth } => self.on_block(rest, depth),
            Frame::Statement { slot, depth } => self.on_statement(slot, depth),
            Frame::Value { slot, depth } => self.on_value(slot, depth),
            Frame::Assigns { place } => self.on_assigns(place),
            Frame::Instructions { rest, depth } => self.on_instructions(rest, depth),
            Frame::AfterLeft {
                payload,
                right,
                depth,
            } => self.on_after_left(payload, right, depth),
            Frame::AfterTest {
                consequent,
                alternate,
                depth,
            } => self.on_after_test(consequent, alternate, depth),
            Frame::Leaves { recorded } => self.on_leaves(recorded),
            Frame::Starts {
                repeated,
                label,
                depth,
            } => self.on_starts(repeated, label, depth),
            Frame::Rounds {
                repeated,
                label,
                depth,
            } => self.on_rounds(repeated, label, depth),
            Frame::Tests {
                repeated,
                label,
                depth,
            } => self.on_tests(repeated, label, depth),
            Frame::Selects {
                selection,
                label,
                depth,
            } => self.on_selects(selection, label, depth),
            Frame::Cases { rest, depth } => self.on_cases(rest, depth),
            Frame::EndsLabel { .. }
            | Frame::EndsLoop { .. }
            | Frame::EndsSwitch { .. }
            | Frame::EndsRound { .. }
            | Frame::Catches { .. } => {}
        }
    }

    pub(crate) fn turn(&mut self, frame: Frame)
        requires { Ready H.Host self.old frame }
        ensures same { Same self.old self.new }
        ensures turns { Turns H.Host self.old frame self.new }
    {
        match self.memory.exit {
            Exit::Normal => self.on_normal(frame),
            _ => self.on_abrupt(frame),
        }
    }
}
