// The instructions inside values, which are statements, in file order.
ghost use Rattle.std.specs.Prelude.{◌≡◌};
ghost use Rattle.hir.specs.Decode.{instr_of, value_of, top_value, opt_value_of};
ghost use Rattle.questions.specs.Questions.{instr_lines, instrs_lines, val_lines, opt_val_lines, opt_val_ops};
ghost use Rattle.questions.specs.Own.{Decodes, Same, own_line, own_of};
ghost use Rattle.questions.specs.Pass.{Passed, values_in};
ghost use Rattle.questions.specs.Rows.{instrs_in};

use crate::line::{Bounds, Line};
use crate::operations::{NONE, Own};
use crate::pass::Pass;
use hir::depth::deepest;
use hir::place::Place;
use hir::range::Range;
use hir::value::{ReactiveInstruction, ReactiveValue};

impl Bounds {
    // The answers of an instruction, by those of its operations.
    fn instruction(self, lvalue: Option<Place>, own: Own) -> Line
        ensures { result ≡ own_line self lvalue own }
    {
        Line {
            numbers: self.optional_place(lvalue) && own.numbers,
            shapes: own.shapes,
            targets: true,
            owns: None,
        }
    }
}

impl Pass<'_> {
    // An instruction with those inside its value.
    #[cycle(values)]
    fn instruction(&mut self, instruction: ReactiveInstruction, depth: u32)
        requires { Decodes (instr_of (value_of depth (values_in self.old)) instruction) }
        ensures { Passed (instr_of (value_of depth (values_in self.old)) instruction) (instr_lines self.old.bounds) self.old self.new }
    {
        let own = self.value_own(instruction.value, depth);
        self.found
            .note(self.bounds.instruction(instruction.lvalue, own));
        self.value(instruction.value, depth);
    }

    // The instructions of a sequence.
    #[cycle(values)]
    fn sequence(&mut self, instructions: Range, depth: u32)
        requires { Decodes (instrs_in depth (values_in self.old) instructions) }
        ensures { Passed (instrs_in depth (values_in self.old) instructions) (instrs_lines self.old.bounds) self.old self.new }
    {
        let arena = self.arena;
        for instruction in arena.inner.instructions.table.row(instructions) {
            self.instruction(*instruction, depth);
        }
    }

    // The instructions inside a value at most `depth` deep. A slot is a number, so it is the depth that tells that calls end.
    #[cycle(values)]
    fn value(&mut self, slot: u32, depth: u32)
        requires { Decodes (value_of depth (values_in self.old) slot) }
        ensures { Passed (value_of depth (values_in self.old) slot) (val_lines self.old.bounds) self.old self.new }
    {
        match self.arena.inner.values.at(slot) {
            ReactiveValue::Instruction(_) => {}
            ReactiveValue::LogicalExpression { left, right, .. } => {
                self.value(left, depth - 1);
                self.value(right, depth - 1);
            }
            ReactiveValue::ConditionalExpression {
                test,
                consequent,
                alternate,
            } => {
                self.value(test, depth - 1);
                self.value(consequent, depth - 1);
                self.value(alternate, depth - 1);
            }
            ReactiveValue::SequenceExpression {
                instructions,
                value: last,
                ..
            } => {
                self.sequence(instructions, depth - 1);
                self.value(last, depth - 1);
            }
            ReactiveValue::OptionalExpression { value: inner, .. } => self.value(inner, depth - 1),
        }
    }

    // A statement's instruction, with those inside its value.
    #[tactic(auto, using(crate::proofs::Deepest::top_at))]
    pub fn top_instruction(&mut self, top: ReactiveInstruction)
        requires { Decodes (instr_of (top_value (values_in self.old)) top) }
        ensures { Passed (instr_of (top_value (values_in self.old)) top) (instr_lines self.old.bounds) self.old self.new }
    {
        self.instruction(top, deepest());
    }

    // The instructions inside a terminal's value.
    pub fn inside(&mut self, slot: Option<u32>)
        requires { Decodes (opt_value_of (top_value (values_in self.old)) slot) }
        ensures { Passed (opt_value_of (top_value (values_in self.old)) slot) (opt_val_lines self.old.bounds) self.old self.new }
    {
        if let Some(slot) = slot {
            self.value(slot, deepest());
        }
    }

    // The operations of a terminal's value.
    pub fn inside_own(&self, slot: Option<u32>) -> Own
        requires { Decodes (opt_value_of (top_value (values_in self.now)) slot) }
        ensures { Same (opt_value_of (top_value (values_in self.now)) slot) (λ v. own_of self.now.bounds (opt_val_ops v)) result }
    {
        // A match: a closure would have to ask again what `value_own` requires.
        match slot {
            Some(slot) => self.value_own(slot, deepest()),
            None => NONE,
        }
    }
}
