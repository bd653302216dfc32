// The memory that a run works on. It is made once and lent to each run.
ghost use Rattle.std.specs.Prelude.{◌≡◌, ◌+◌, ◌^◌, ◌<◌, ◌≤◌, [], ◌∷◌, ◌++◌, vec_len, vec_capacity};

use crate::frame::{Exit, Frame, Loop};
use hir::range::Range;
use host::Thrown;
use std::alloc::{AllocError, Global};

// `frames` is the stack of what is left, its top last; `values` has those of an operation's question.
#[derive(Drop)]
pub struct Memory {
    pub frames: Vec<Frame>,
    pub values: Vec<u32>,
    pub exit: Exit,
    pub given: u32,
    pub steps: u32,
    pub entries: u32,
    pub recorded: bool,
    ghost room: { (1024 ≤ vec_capacity frames) × (4097 ≤ vec_capacity values) },
}

impl Memory {
    ghost use Rattle.run.specs.Frames.{behind};
    ghost use Rattle.run.specs.Holds.{Answered, Holds, Paid, Popped, Pushed, updates};
    ghost use Rattle.run.specs.declared.frame.Frame.TheVariants.{Block, Cases, EndsLabel, EndsRound, EndsSwitch, Starts};

    pub fn new(heap: Global) -> Result<Memory, AllocError> {
        Ok(Memory {
            frames: Vec::with_capacity(heap, 1024)?,
            values: Vec::with_capacity(heap, 4097)?,
            exit: Exit::Normal,
            given: 0,
            steps: 0,
            entries: 0,
            recorded: false,
        })
    }

    pub(crate) fn push(&mut self, frame: Frame)
        requires { vec_len self.old.frames ≤ 1020 }
        ensures holds { Pushed (self.old.frames.items ++ frame ∷ []) self.old self.new }
        ensures len { vec_len self.new.frames ≡ vec_len self.old.frames + 1 }
    {
        self.frames.push_reserved(frame);
    }

    // The block of a round.
    pub(crate) fn push_round(&mut self, label: Option<u32>, block: Range, depth: u32)
        requires { vec_len self.old.frames ≤ 1010 }
        ensures { Pushed ((self.old.frames.items ++ EndsRound label ∷ []) ++ Block block depth ∷ []) self.old self.new }
    {
        self.push(Frame::EndsRound { label });
        self.push(Frame::Block { rest: block, depth });
    }

    // The update of a loop that has one.
    pub(crate) fn push_update(&mut self, update: Option<u32>)
        requires { vec_len self.old.frames ≤ 1010 }
        ensures holds { Pushed (self.old.frames.items ++ updates update) self.old self.new }
        ensures len { vec_len self.new.frames ≤ vec_len self.old.frames + 1 }
    {
        if let Some(slot) = update {
            self.push(Frame::Value { slot, depth: 64 });
        }
    }

    // What a loop is left as: it starts, and its label ends.
    pub(crate) fn push_loop(&mut self, repeated: Loop, label: Option<u32>, depth: u32)
        requires { vec_len self.old.frames ≤ 1010 }
        ensures holds { Pushed ((self.old.frames.items ++ EndsLabel label ∷ []) ++ Starts repeated label depth ∷ []) self.old self.new }
        ensures len { vec_len self.new.frames ≡ vec_len self.old.frames + 2 }
    {
        self.push(Frame::EndsLabel { label });
        self.push(Frame::Starts {
            repeated,
            label,
            depth,
        });
    }

    // A switch goes on with its cases from a place on.
    pub(crate) fn choose(&mut self, cases: Range, place: u32, label: Option<u32>, depth: u32)
        requires room { vec_len self.old.frames ≤ 1010 }
        requires within { place ≤ cases.count }
        requires fits { cases.start + place < 2 ^ 32 }
        ensures { Holds ((self.old.frames.items ++ EndsSwitch label ∷ []) ++ Cases (behind cases place) depth ∷ []) self.old.exit place self.old.steps self.old.entries self.old.recorded self.new }
    {
        self.given = place;
        self.push(Frame::EndsSwitch { label });
        self.push(Frame::Cases {
            rest: cases.behind(place),
            depth,
        });
    }

    pub(crate) fn pop(&mut self) -> Option<Frame>
        ensures { Popped self.old result self.new }
    {
        self.frames.pop()
    }

    // Pays for a step. A run that cannot is spent.
    pub(crate) fn pay(&mut self, budget: u32) -> bool
        ensures { Paid self.old budget result self.new }
    {
        let paid = self.steps < budget;
        if paid {
            self.steps += 1;
        } else {
            self.exit = Exit::Spent;
        }
        paid
    }
    // A run goes on with what is answered, and what is thrown is how it ends.
    pub(crate) fn answered(&mut self, reply: Result<u32, Thrown>) -> Option<u32>
        ensures { Answered self.old reply result self.new }
    {
        match reply {
            Ok(v) => Some(v),
            Err(Thrown(v)) => {
                self.exit = Exit::Threw(v);
                None
            }
        }
    }
}
