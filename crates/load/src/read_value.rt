// Values, from the inside out: a value takes its slot after those inside it. `depth` is how deep they may still be.
ghost use Rattle.std.specs.Prelude.{◌≡◌, Err, MatchResult};
ghost use Rattle.hir.specs.Decode.{value_of};
ghost use Rattle.format.specs.Parse.{value as value_parser, val_read, logical_read, conditional_read, sequence_read, optional_read, instr_read, instrs_read};
ghost use Rattle.load.specs.Reads.{cursor};
ghost use Rattle.load.specs.Values.{ValueRoom, ReadsValue, val_in, instr_in, InstrsIn};

use crate::reader::Reader;
use format::fault::FileFault;
use hir::value::{ReactiveInstruction, ReactiveValue};
use hir::value_arena::ValueArena;

impl Reader<'_> {
    // A value, in its slot.
    #[cycle(read_values)]
    pub fn read_value(&mut self, arena: &mut ValueArena, depth: u32) -> Result<u32, FileFault>
        requires { ValueRoom arena.old self.old.used }
        ensures { ReadsValue (value_parser depth) (value_of depth) arena.old arena.new self.old self.new result }
    {
        let depth = depth.checked_sub(1).ok_or(FileFault::Limit(self.at))?;
        self.begin_value()?;
        let value = self.read_case(arena, depth)?;
        let slot = arena.values.add(value);
        Ok(slot)
    }

    #[cycle(read_values)]
    fn read_case(&mut self, arena: &mut ValueArena, depth: u32) -> Result<ReactiveValue, FileFault>
        requires { ValueRoom arena.old self.old.used }
        ensures { ReadsValue (val_read (value_parser depth)) (val_in depth) arena.old arena.new self.old self.new result }
    {
        let at = self.at;
        let case = self.word()?;
        // A match of numbers: it is the format's table of cases.
        match case {
            0 => {
                let operation = self.read_operation(arena)?;
                Ok(ReactiveValue::Instruction(operation))
            }
            1 => self.read_logical(arena, depth),
            2 => self.read_conditional(arena, depth),
            3 => self.read_sequence(arena, depth),
            4 => self.read_optional(arena, depth),
            _ => Err(FileFault::Reading(at)),
        }
    }

    #[cycle(read_values)]
    fn read_logical(
        &mut self,
        arena: &mut ValueArena,
        depth: u32,
    ) -> Result<ReactiveValue, FileFault>
        requires { ValueRoom arena.old self.old.used }
        ensures { ReadsValue (logical_read (value_parser depth)) (val_in depth) arena.old arena.new self.old self.new result }
    {
        let operator = self.item()?;
        let left = self.read_value(arena, depth)?;
        let right = self.read_value(arena, depth)?;
        Ok(ReactiveValue::LogicalExpression {
            operator,
            left,
            right,
        })
    }

    #[cycle(read_values)]
    fn read_conditional(
        &mut self,
        arena: &mut ValueArena,
        depth: u32,
    ) -> Result<ReactiveValue, FileFault>
        requires { ValueRoom arena.old self.old.used }
        ensures { ReadsValue (conditional_read (value_parser depth)) (val_in depth) arena.old arena.new self.old self.new result }
    {
        let test = self.read_value(arena, depth)?;
        let consequent = self.read_value(arena, depth)?;
        let alternate = self.read_value(arena, depth)?;
        Ok(ReactiveValue::ConditionalExpression {
            test,
            consequent,
            alternate,
        })
    }

    #[cycle(read_values)]
    fn read_sequence(
        &mut self,
        arena: &mut ValueArena,
        depth: u32,
    ) -> Result<ReactiveValue, FileFault>
        requires { ValueRoom arena.old self.old.used }
        ensures { ReadsValue (sequence_read (value_parser depth)) (val_in depth) arena.old arena.new self.old self.new result }
    {
        let count = self.word()?;
        let base = arena.instructions.waiting.vec.len();
        self.read_instructions(arena, depth, count)?;
        let instructions = arena.instructions.settle(base);
        let id = self.order()?;
        let value = self.read_value(arena, depth)?;
        Ok(ReactiveValue::SequenceExpression {
            instructions,
            id,
            value,
        })
    }

    #[cycle(read_values)]
    fn read_optional(
        &mut self,
        arena: &mut ValueArena,
        depth: u32,
    ) -> Result<ReactiveValue, FileFault>
        requires { ValueRoom arena.old self.old.used }
        ensures { ReadsValue (optional_read (value_parser depth)) (val_in depth) arena.old arena.new self.old self.new result }
    {
        let value = self.read_value(arena, depth)?;
        let optional = self.flag()?;
        Ok(ReactiveValue::OptionalExpression { value, optional })
    }

    // A sequence's instructions, each a statement; they are put aside.
    #[cycle(read_values)]
    fn read_instructions(
        &mut self,
        arena: &mut ValueArena,
        depth: u32,
        count: u32,
    ) -> Result<(), FileFault>
        requires { ValueRoom arena.old self.old.used }
        ensures { MatchResult result (λ _. InstrsIn depth count arena.old arena.new (cursor self.old) (cursor self.new)) (λ e. instrs_read (value_parser depth) count (cursor self.old) ≡ Err e) }
    {
        // A loop of its own: the calls in it lead back here.
        for _ in 0..count {
            self.begin_statement()?;
            let instruction = self.read_instruction(arena, depth)?;
            arena.instructions.wait(instruction);
        }
        Ok(())
    }

    // An instruction, whose value is as deep as `depth` allows.
    #[cycle(read_values)]
    pub fn read_instruction(
        &mut self,
        arena: &mut ValueArena,
        depth: u32,
    ) -> Result<ReactiveInstruction, FileFault>
        requires { ValueRoom arena.old self.old.used }
        ensures { ReadsValue (instr_read (value_parser depth)) (instr_in depth) arena.old arena.new self.old self.new result }
    {
        let id = self.order()?;
        let lvalue = self.item()?;
        let value = self.read_value(arena, depth)?;
        let span = self.word()?;
        Ok(ReactiveInstruction {
            id,
            lvalue,
            value,
            span,
        })
    }
}
