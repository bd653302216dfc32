// The values of statements, which are at most 64 deep.
ghost use Rattle.format.specs.Parse.{top_value as top_parser, opt_value, instruction_read};
ghost use Rattle.load.specs.Blocks.{Room, ReadsBlock, slot_in, opt_slot_in, plain_in};

use crate::reader::Reader;
use format::fault::FileFault;
use hir::arena::Arena;
use hir::value::ReactiveInstruction;

impl Reader<'_> {
    pub fn read_top_value(&mut self, arena: &mut Arena) -> Result<u32, FileFault>
        requires { Room arena.old self.old.used }
        ensures { ReadsBlock top_parser slot_in arena.old arena.new self.old self.new result }
    {
        self.read_value(&mut arena.inner, 64)
    }

    pub fn read_top_instruction(
        &mut self,
        arena: &mut Arena,
    ) -> Result<ReactiveInstruction, FileFault>
        requires { Room arena.old self.old.used }
        ensures { ReadsBlock instruction_read plain_in arena.old arena.new self.old self.new result }
    {
        self.read_instruction(&mut arena.inner, 64)
    }

    // No `Item`: what is read goes into the arena.
    pub fn read_optional_value(&mut self, arena: &mut Arena) -> Result<Option<u32>, FileFault>
        requires { Room arena.old self.old.used }
        ensures { ReadsBlock opt_value opt_slot_in arena.old arena.new self.old self.new result }
    {
        if self.flag()? {
            Ok(Some(self.read_top_value(arena)?))
        } else {
            Ok(None)
        }
    }
}
