// Jumps, and the frames that they look for.
ghost use Rattle.std.specs.Prelude.{◌≡◌};
ghost use Rattle.run.specs.Exits.{any, aims, label_of};

use crate::frame::{Exit, Frame, Target};
use crate::memory::Memory;
use hir::terminal::ReactiveTerminalTargetKind;

// The label that a jump names, if it names one. A jump that is implicit goes where the run goes anyway.
// Two Options: a jump without a label still looks for its target, an implicit one does not.
pub fn label_of(target: u32, kind: ReactiveTerminalTargetKind) -> Option<Option<u32>>
    ensures { result ≡ label_of target kind }
{
    match kind {
        ReactiveTerminalTargetKind::Implicit => None,
        ReactiveTerminalTargetKind::Labeled => Some(Some(target)),
        ReactiveTerminalTargetKind::Unlabeled => Some(None),
    }
}

// Whether a jump means the statement that a frame ends.
fn aims_at(target: Target, frame: Frame) -> bool
    ensures { result ≡ aims target frame }
{
    match (frame, target) {
        (Frame::EndsLabel { label }, Target::Break(Some(to))) => label == Some(to),
        (Frame::EndsLoop { label }, Target::Continue(Some(to))) => label == Some(to),
        (Frame::EndsLoop { .. }, Target::Break(None) | Target::Continue(None))
        | (Frame::EndsSwitch { .. }, Target::Break(None)) => true,
        _ => false,
    }
}

// Whether a jump has its target around it.
fn has_target(frames: &[Frame], target: Target) -> bool
    ensures { result ≡ any target frames.now }
{
    frames.iter().any(|frame| aims_at(target, *frame))
}

impl Memory {
    ghost use Rattle.run.specs.Holds.{Holds};
    ghost use Rattle.run.specs.Exits.{jumped};

    // A jump without its target around it goes where the run goes anyway.
    pub(crate) fn jump(&mut self, target: Target)
        ensures { Holds self.old.frames.items (jumped target self.old.frames.items self.old.exit) self.old.given self.old.steps self.old.entries self.old.recorded self.new }
    {
        if has_target(self.frames.as_slice(), target) {
            self.exit = Exit::from(target);
        }
    }
}
