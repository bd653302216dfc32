// The turns of what ends a statement, and of what passes over frames.
ghost use Rattle.std.specs.Prelude.{◌≡◌, ◌≤◌, ◌≢◌, vec_len};
ghost use Rattle.run.specs.declared.frame.Exit.TheVariants.{Normal};
ghost use Rattle.run.specs.Turn.{Ready, Same, Turns};
ghost use Rattle.run.specs.declared.frame.Frame.TheVariants.{Catches as CatchesFrame};
ghost use Rattle.run.specs.Exits.{onto};
ghost use Rattle.semantics.specs.Exec.{end_label, end_loop, end_round};

use crate::frame::{Exit, Frame};
use crate::machine::Machine;
use crate::store::assign;
use hir::place::Place;
use hir::range::Range;
use host::Host;

// What the end of a labeled statement makes of an exit.
fn end_label(label: Option<u32>, exit: Exit) -> Exit
    ensures { result ≡ onto (end_label label) exit }
{
    match exit {
        Exit::Broke(Some(to)) if label == Some(to) => Exit::Normal,
        _ => exit,
    }
}

// What the end of a loop or a switch makes of an exit.
fn end_loop(label: Option<u32>, exit: Exit) -> Exit
    ensures { result ≡ onto (end_loop label) exit }
{
    match exit {
        Exit::Broke(None) => Exit::Normal,
        _ => end_label(label, exit),
    }
}

// What the end of a round makes of an exit.
fn end_round(label: Option<u32>, exit: Exit) -> Exit
    ensures { result ≡ onto (end_round label) exit }
{
    match exit {
        Exit::Continued(None) => Exit::Normal,
        Exit::Continued(Some(to)) if label == Some(to) => Exit::Normal,
        _ => exit,
    }
}

impl<'a, H: Host> Machine<'a, H> {
    fn on_catches(&mut self, binding: Option<Place>, handler: Range, depth: u32)
        requires room { vec_len self.old.memory.now.frames ≤ 1000 }
        requires ready { Ready H.Host self.old (CatchesFrame binding handler depth) }
        ensures same { Same self.old self.new }
        ensures turns { Turns H.Host self.old (CatchesFrame binding handler depth) self.new }
    {
        if let Exit::Threw(v) = self.memory.exit {
            self.memory.given = v;
            self.memory.exit = Exit::Normal;
            assign(self.store, binding, v);
            self.memory.push(Frame::Block {
                rest: handler,
                depth,
            });
        }
    }

    pub(crate) fn on_abrupt(&mut self, frame: Frame)
        requires abrupt { self.old.memory.now.exit ≢ Normal }
        requires ready { Ready H.Host self.old frame }
        ensures same { Same self.old self.new }
        ensures turns { Turns H.Host self.old frame self.new }
    {
        match frame {
            Frame::EndsLabel { label } => {
                self.memory.exit = end_label(label, self.memory.exit);
            }
            Frame::EndsLoop { label } | Frame::EndsSwitch { label } => {
                self.memory.exit = end_loop(label, self.memory.exit);
            }
            Frame::EndsRound { label } => {
                self.memory.exit = end_round(label, self.memory.exit);
            }
            Frame::Catches {
                binding,
                handler,
                depth,
            } => self.on_catches(binding, handler, depth),
            _ => {}
        }
    }
}
