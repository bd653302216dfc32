// What stands around a statement: the labels that jumps may name, the loops and the switches.
ghost use Rattle.std.specs.Prelude.{◌≡◌, []};
ghost use Rattle.semantics.specs.Targets.{has, plus, mark, hits};
ghost use Rattle.questions.specs.Around.{labels_of, around_of, inside_of, opt_jump_aims, jump_in};

use crate::line::Bounds;
use hir::terminal::{ReactiveLabel, ReactiveTerminalTargetKind};

// What a terminal is to the jumps inside it.
#[derive(Clone, Copy, PartialEq, Eq)]
pub enum Inside {
    Plain,
    Switch,
    Loop,
}

#[derive(Clone, Copy)]
pub enum Jump {
    Break(u32, ReactiveTerminalTargetKind),
    Continue(u32, ReactiveTerminalTargetKind),
}

// The labels that a jump may name, the innermost first. No Option of a link: its methods would be functions over an Option.
#[derive(Clone, Copy)]
pub enum Labels<'a> {
    Nowhere,
    Within { label: u32, outer: &'a Labels<'a> },
}

// The labels, and those of loops; whether there is a loop, and whether there is a loop or a switch. The two flags stand here so
// that a jump without label need not look for its target.
#[derive(Clone, Copy)]
pub struct Around<'a> {
    pub labels: Labels<'a>,
    pub loops: Labels<'a>,
    pub looped: bool,
    pub breaks: bool,
}

// What stands around a function's body.
pub const NOWHERE: Around<'static> = Around {
    labels: Labels::Nowhere,
    loops: Labels::Nowhere,
    looped: false,
    breaks: false,
};

impl Labels<'_> {
    fn has(&self, label: u32) -> bool
        ensures { result ≡ has label (labels_of self.now) }
    {
        match *self {
            Labels::Nowhere => false,
            Labels::Within { label: here, outer } => label == here || outer.has(label),
        }
    }

    // One label more, if there is one.
    fn with(&self, label: Option<u32>) -> Labels<'_>
        ensures { labels_of result ≡ plus label (labels_of self.now) }
    {
        match label {
            None => *self,
            Some(label) => Labels::Within {
                label,
                outer: &*self,
            },
        }
    }
}

// Whether a jump has its target, where `unlabeled` tells of one without label.
fn reaches(unlabeled: bool, labels: &Labels, target: u32, kind: ReactiveTerminalTargetKind) -> bool
    ensures { result ≡ hits unlabeled (labels_of labels.now) target kind }
{
    match kind {
        ReactiveTerminalTargetKind::Implicit => true,
        ReactiveTerminalTargetKind::Unlabeled => unlabeled,
        ReactiveTerminalTargetKind::Labeled => labels.has(target),
    }
}

impl Bounds {
    // Whether a target is below the counter of blocks, an unlabeled or implicit one too.
    pub fn jump(self, jump: Jump) -> bool
        ensures { result ≡ jump_in self jump }
    {
        let (Jump::Break(target, _) | Jump::Continue(target, _)) = jump;
        target < self.blocks
    }
}

impl Around<'_> {
    // Whether a jump that stands here, if one does, has its target.
    pub fn aims(&self, jump: Option<Jump>) -> bool
        ensures { result ≡ opt_jump_aims jump (around_of self.now) }
    {
        // A match: no proof is found for a closure that holds what stands around.
        match jump {
            None => true,
            Some(Jump::Break(target, kind)) => reaches(self.breaks, &self.labels, target, kind),
            Some(Jump::Continue(target, kind)) => reaches(self.looped, &self.loops, target, kind),
        }
    }

    // What stands around the statements inside a terminal that stands here.
    pub fn within(&self, label: Option<ReactiveLabel>, inside: Inside) -> Around<'_>
        ensures { around_of result ≡ inside_of inside (mark label) (around_of self.now) }
    {
        let name = label.and_then(ReactiveLabel::named);
        let labels = self.labels.with(name);
        match inside {
            Inside::Plain => Around { labels, ..*self },
            Inside::Switch => Around {
                labels,
                breaks: true,
                ..*self
            },
            Inside::Loop => Around {
                labels,
                loops: self.loops.with(name),
                looped: true,
                breaks: true,
            },
        }
    }
}
