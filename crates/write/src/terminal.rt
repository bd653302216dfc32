// The parts of terminals that hold no block.
ghost use Rattle.std.specs.Prelude.{◌∷◌, ◌++◌};
ghost use Rattle.hir.specs.Encode.{word, place_words, label_words};
ghost use Rattle.hir.specs.Numbers.{target_number};
ghost use Rattle.write.specs.Puts.{Room, Wrote};

use crate::encode::Encode;
use crate::writer::Writer;
use hir::place::Place;
use hir::terminal::{ReactiveLabel, ReactiveTerminalTargetKind};

impl Encode for ReactiveLabel {
    ghost words = { label_words };

    fn put(&self, writer: &mut Writer) {
        writer.words(&[self.id, u32::from(self.implicit)]);
    }
}

impl Writer<'_> {
    // A `Break` or a `Continue`, by its number.
    pub fn jump(&mut self, number: u32, target: u32, id: u32, kind: ReactiveTerminalTargetKind)
        requires { Room self.old (number ∷ target ∷ id ∷ word (target_number kind)) }
        ensures { Wrote self.old self.new (number ∷ target ∷ id ∷ word (target_number kind)) }
    {
        self.words(&[number, target, id, kind as u32]);
    }

    // A `Return` or a `Throw`, by its number.
    pub fn leave(&mut self, number: u32, value: Place, id: u32)
        requires { Room self.old (number ∷ (place_words value ++ word id)) }
        ensures { Wrote self.old self.new (number ∷ (place_words value ++ word id)) }
    {
        self.word(number);
        value.put(self);
        self.word(id);
    }
}
