// What a person is told of a text that is refused.
ghost use Rattle.std.specs.Prelude.{Some};
ghost use Rattle.text.specs.Message.{message, position};

use crate::character::{Position, TextFault};
use std::fmt;

impl fmt::Display for Position {
    ghost output = { λ at. Some (position at) };

    fn fmt<W: fmt::Write>(&self, f: &mut fmt::Formatter<W>) -> fmt::Result {
        let Position { line, column } = self;
        write!(f, "line {line}, column {column}")
    }
}

impl fmt::Display for TextFault {
    ghost output = { λ fault. Some (message fault) };

    fn fmt<W: fmt::Write>(&self, f: &mut fmt::Formatter<W>) -> fmt::Result {
        match self {
            TextFault::Character(at) => write!(f, "{at}: not a decimal word"),
            TextFault::TooLarge(at) => write!(f, "{at}: a word too large"),
            TextFault::Memory(_) => write!(f, "no memory"),
        }
    }
}
