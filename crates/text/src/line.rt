// Words in decimal on a line.
ghost use Rattle.std.specs.Prelude.{Some};
ghost use Rattle.text.specs.Line.{between_spaces, spaced};

use std::fmt;

// Each word with a space before it.
#[derive(Clone, Copy)]
pub struct Spaced<'a>(pub &'a [u32]);

impl fmt::Display for Spaced<'_> {
    ghost output = { λ words. Some (spaced words.0.now) };

    fn fmt<W: fmt::Write>(&self, f: &mut fmt::Formatter<W>) -> fmt::Result {
        for word in self.0 {
            write!(f, " {word}")?;
        }
        Ok(())
    }
}

// The words with single spaces between them.
#[derive(Clone, Copy)]
pub struct Words<'a>(pub &'a [u32]);

impl fmt::Display for Words<'_> {
    ghost output = { λ words. Some (between_spaces words.0.now) };

    fn fmt<W: fmt::Write>(&self, f: &mut fmt::Formatter<W>) -> fmt::Result {
        match self.0 {
            [] => Ok(()),
            [first, rest @ ..] => write!(f, "{first}{}", Spaced(rest)),
        }
    }
}
