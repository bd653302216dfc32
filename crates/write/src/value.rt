// Values, with the values inside them. A depth is what is left for the values inside: it falls from 64 to 0.
ghost use Rattle.hir.specs.Decode.{op_of, instr_of, instrs_of, val_of, value_of, top_value, opt_value_of};
ghost use Rattle.hir.specs.Encode.{op_words, val_words, instr_words, instrs_words, opt_val_words};
ghost use Rattle.hir.specs.Held.{value_slots};
ghost use Rattle.write.specs.Puts.{Writable, Written};

use crate::encode::Encode;
use crate::writer::Writer;
use hir::depth::deepest;
use hir::value::{InstructionValue, ReactiveInstruction, ReactiveValue};
use hir::value_arena::ValueArena;

impl Writer<'_> {
    fn operation(&mut self, arena: &ValueArena, op: InstructionValue)
        requires { Writable op_words (op_of (value_slots arena.now) op) self.old }
        ensures { Written op_words (op_of (value_slots arena.now) op) self.old self.new }
    {
        self.words(&[op.kind, op.payload]);
        self.list(arena.places.row(op.written));
        self.list(arena.places.row(op.operands));
        self.word(op.span);
    }

    #[cycle(put_values)]
    fn instruction(&mut self, arena: &ValueArena, instruction: ReactiveInstruction, depth: u32)
        requires { Writable instr_words (instr_of (value_of depth (value_slots arena.now)) instruction) self.old }
        ensures { Written instr_words (instr_of (value_of depth (value_slots arena.now)) instruction) self.old self.new }
    {
        self.word(instruction.id);
        instruction.lvalue.put(self);
        self.value_at(arena, instruction.value, depth);
        self.word(instruction.span);
    }

    // The instructions of a row, without their count.
    #[cycle(put_values)]
    fn instructions(&mut self, arena: &ValueArena, instructions: &[ReactiveInstruction], depth: u32)
        requires { Writable instrs_words (instrs_of (value_of depth (value_slots arena.now)) instructions.now) self.old }
        ensures { Written instrs_words (instrs_of (value_of depth (value_slots arena.now)) instructions.now) self.old self.new }
    {
        for instruction in instructions {
            self.instruction(arena, *instruction, depth);
        }
    }

    #[cycle(put_values)]
    fn value(&mut self, arena: &ValueArena, value: &ReactiveValue, depth: u32)
        requires { Writable val_words (val_of (value_slots arena.now) (value_of depth (value_slots arena.now)) value.now) self.old }
        ensures { Written val_words (val_of (value_slots arena.now) (value_of depth (value_slots arena.now)) value.now) self.old self.new }
    {
        match *value {
            ReactiveValue::Instruction(op) => {
                self.word(0);
                self.operation(arena, op);
            }
            ReactiveValue::LogicalExpression {
                operator,
                left,
                right,
            } => {
                self.words(&[1, operator as u32]);
                self.value_at(arena, left, depth);
                self.value_at(arena, right, depth);
            }
            ReactiveValue::ConditionalExpression {
                test,
                consequent,
                alternate,
            } => {
                self.word(2);
                self.value_at(arena, test, depth);
                self.value_at(arena, consequent, depth);
                self.value_at(arena, alternate, depth);
            }
            ReactiveValue::SequenceExpression {
                instructions,
                id,
                value,
            } => {
                self.words(&[3, instructions.count]);
                self.instructions(arena, arena.instructions.table.row(instructions), depth);
                self.word(id);
                self.value_at(arena, value, depth);
            }
            ReactiveValue::OptionalExpression { value, optional } => {
                self.word(4);
                self.value_at(arena, value, depth);
                self.word(u32::from(optional));
            }
        }
    }

    // The value in a slot, by reference and not by `at`, which would copy it each time.
    #[cycle(put_values)]
    fn value_at(&mut self, arena: &ValueArena, slot: u32, depth: u32)
        requires { Writable val_words (value_of depth (value_slots arena.now) slot) self.old }
        ensures { Written val_words (value_of depth (value_slots arena.now) slot) self.old self.new }
    {
        self.value(arena, &arena.values.vec[slot as usize], depth - 1);
    }

    // A value of a statement.
    pub fn top_value(&mut self, arena: &ValueArena, slot: u32)
        requires { Writable val_words (top_value (value_slots arena.now) slot) self.old }
        ensures { Written val_words (top_value (value_slots arena.now) slot) self.old self.new }
    {
        self.value_at(arena, slot, deepest());
    }

    // No `Encode`: what a slot's words are is told by the arena alone, so a closure would have to be handed in with its contract.
    pub fn optional_value(&mut self, arena: &ValueArena, slot: Option<u32>)
        requires { Writable opt_val_words (opt_value_of (top_value (value_slots arena.now)) slot) self.old }
        ensures { Written opt_val_words (opt_value_of (top_value (value_slots arena.now)) slot) self.old self.new }
    {
        match slot {
            None => self.word(0),
            Some(slot) => {
                self.word(1);
                self.top_value(arena, slot);
            }
        }
    }

    // The instruction of a statement.
    pub fn top_instruction(&mut self, arena: &ValueArena, instruction: ReactiveInstruction)
        requires { Writable instr_words (instr_of (top_value (value_slots arena.now)) instruction) self.old }
        ensures { Written instr_words (instr_of (top_value (value_slots arena.now)) instruction) self.old self.new }
    {
        self.instruction(arena, instruction, deepest());
    }
}
