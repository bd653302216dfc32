// The operations of a statement: the numbers of their places, and how many their kinds ask.
ghost use Rattle.std.specs.Prelude.{◌≡◌, [], ◌∷◌};
ghost use Rattle.std.specs.List.{list_all};
ghost use Rattle.hir.specs.Decode.{op_of, value_of};
ghost use Rattle.questions.specs.Questions.{place_in, opt_place_in, writes_well, reads_well, val_ops};
ghost use Rattle.questions.specs.Own.{own_of, both_own, Decodes, Same};
ghost use Rattle.questions.specs.Pass.{values_in};

use crate::line::Bounds;
use crate::pass::Pass;
use hir::place::Place;
use hir::value::{InstructionValue, ReactiveValue};

// Whether the numbers of some operations are in range, and their written places and operands as their kinds ask.
#[derive(Clone, Copy)]
pub struct Own {
    pub numbers: bool,
    pub shapes: bool,
}

// The answers of no operations, which say yes: a constant and no `Default`.
pub const NONE: Own = Own {
    numbers: true,
    shapes: true,
};

impl Own {
    // The answers of two lists of operations together.
    pub fn and(self, other: Own) -> Own
        ensures { result ≡ both_own self other }
    {
        Own {
            numbers: self.numbers && other.numbers,
            shapes: self.shapes && other.shapes,
        }
    }
}

impl Bounds {
    // Whether a place's identifier is in its table.
    fn place(self, place: Place) -> bool
        ensures { result ≡ place_in self place }
    {
        place.identifier < self.identifiers
    }

    pub fn optional_place(self, place: Option<Place>) -> bool
        ensures { result ≡ opt_place_in self place }
    {
        place.is_none_or(|place| self.place(place))
    }

    fn places(self, places: &[Place]) -> bool
        ensures { result ≡ list_all (place_in self) places.now }
    {
        places.iter().all(|place| self.place(*place))
    }
}

// Whether a kind, a number in the file too, writes so many places.
fn writes(kind: u32, places: u32) -> bool
    ensures { result ≡ writes_well kind places }
{
    match kind {
        2 | 3 | 4 | 5 | 37 | 38 => places == 1,
        6 => true,
        _ => places == 0,
    }
}

// Whether a kind has so many operands.
fn reads(kind: u32, operands: u32) -> bool
    ensures { result ≡ reads_well kind operands }
{
    match kind {
        0 | 1 | 4 | 37 | 38 => operands == 1,
        5 => operands == 2,
        2 | 3 => operands == 0,
        _ => true,
    }
}

impl Pass<'_> {
    // The answers of one operation.
    fn operation(&self, value: InstructionValue) -> Own
        requires { Decodes (op_of (values_in self.now) value) }
        ensures { Same (op_of (values_in self.now) value) (λ o. own_of self.now.bounds (o ∷ [])) result }
    {
        let places = &self.arena.inner.places;
        let written = Own {
            numbers: self.bounds.places(places.row(value.written)),
            shapes: writes(value.kind, value.written.count),
        };
        let read = Own {
            numbers: self.bounds.places(places.row(value.operands)),
            shapes: reads(value.kind, value.operands.count),
        };
        written.and(read)
    }

    // The operations of a value, but not those of a sequence's instructions, which are statements of their own.
    pub fn value_own(&self, slot: u32, depth: u32) -> Own
        requires { Decodes (value_of depth (values_in self.now) slot) }
        ensures { Same (value_of depth (values_in self.now) slot) (λ v. own_of self.now.bounds (val_ops v)) result }
    {
        match self.arena.inner.values.at(slot) {
            ReactiveValue::Instruction(value) => self.operation(value),
            ReactiveValue::LogicalExpression { left, right, .. } => {
                let own = self.value_own(left, depth - 1);
                own.and(self.value_own(right, depth - 1))
            }
            ReactiveValue::ConditionalExpression {
                test,
                consequent,
                alternate,
            } => {
                let own = self.value_own(test, depth - 1);
                let chosen = self.value_own(consequent, depth - 1);
                own.and(chosen.and(self.value_own(alternate, depth - 1)))
            }
            ReactiveValue::SequenceExpression { value, .. }
            | ReactiveValue::OptionalExpression { value, .. } => self.value_own(value, depth - 1),
        }
    }
}
