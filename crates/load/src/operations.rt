// The values without other values inside: operations, with the rows of their places.
ghost use Rattle.hir.specs.Decode.{op_of};
ghost use Rattle.format.specs.Parse.{listed, place as place_item, op as op_item};
ghost use Rattle.load.specs.Values.{ValueRoom, ReadsValue, places_in};

use crate::reader::Reader;
use format::fault::FileFault;
use hir::range::Range;
use hir::value::InstructionValue;
use hir::value_arena::ValueArena;

impl Reader<'_> {
    fn read_places(&mut self, arena: &mut ValueArena) -> Result<Range, FileFault>
        requires { ValueRoom arena.old self.old.used }
        ensures { ReadsValue (listed place_item) places_in arena.old arena.new self.old self.new result }
    {
        let count = self.word()?;
        let start = arena.places.vec.len() as u32;
        // A loop of its own: each row goes to another table.
        for _ in 0..count {
            let place = self.item()?;
            arena.places.add(place);
        }
        Ok(Range { start, count })
    }

    #[tactic(auto, unfolding(format::specs::Parse::op))]
    pub fn read_operation(&mut self, arena: &mut ValueArena) -> Result<InstructionValue, FileFault>
        requires { ValueRoom arena.old self.old.used }
        ensures { ReadsValue op_item op_of arena.old arena.new self.old self.new result }
    {
        let kind = self.below(42)?;
        let payload = self.payload(kind)?;
        let written = self.read_places(arena)?;
        let operands = self.read_places(arena)?;
        let span = self.word()?;
        Ok(InstructionValue {
            kind,
            payload,
            written,
            operands,
            span,
        })
    }
}
