// Places.
ghost use Rattle.hir.specs.Encode.{place_words};

use crate::encode::Encode;
use crate::writer::Writer;
use hir::place::Place;

impl Encode for Place {
    ghost words = { place_words };

    fn put(&self, writer: &mut Writer) {
        writer.words(&[
            self.identifier,
            self.effect as u32,
            u32::from(self.reactive),
            self.span,
        ]);
    }
}
