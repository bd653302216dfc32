// What is written as the same words wherever it stands: numbers, options and lists of it.
ghost use Rattle.std.specs.Prelude.{ℕ, ◌^◌, ◌<◌, List, length};
ghost use Rattle.hir.specs.Encode.{word, option_words, items_words, list_words};
ghost use Rattle.write.specs.Puts.{Room, Wrote};

use crate::writer::Writer;

pub trait Encode {
    ghost words: { Self → List ℕ };

    fn put(&self, writer: &mut Writer)
        requires { Room writer.old (words self.now) }
        ensures { Wrote writer.old writer.new (words self.now) };
}

impl Encode for u32 {
    ghost words = { word };

    fn put(&self, writer: &mut Writer) {
        writer.word(*self);
    }
}

impl<T: Encode> Encode for Option<T> {
    ghost words = { option_words T.words };

    fn put(&self, writer: &mut Writer) {
        match self {
            None => writer.word(0),
            Some(value) => {
                writer.word(1);
                value.put(writer);
            }
        }
    }
}

impl Writer<'_> {
    pub fn items<T: Encode>(&mut self, items: &[T])
        requires { Room self.old (items_words T.words items.now) }
        ensures { Wrote self.old self.new (items_words T.words items.now) }
    {
        for item in items {
            item.put(self);
        }
    }

    // The count of the items, and the items.
    pub fn list<T: Encode>(&mut self, items: &[T])
        requires few { length items.now < 2 ^ 32 }
        requires room { Room self.old (list_words T.words items.now) }
        ensures { Wrote self.old self.new (list_words T.words items.now) }
    {
        self.word(items.len() as u32);
        self.items(items);
    }
}
