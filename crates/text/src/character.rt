// One character after another: where it stands, and what it adds to the word that is being read.
ghost use Rattle.std.specs.Prelude.{◌≡◌, ◌+◌, ◌*◌, ◌^◌, ◌<◌, SomeIff, alloc_error};
ghost use Rattle.text.specs.declared.character.TextFault.TheVariants.{Memory};
ghost use Rattle.text.specs.Said.{digit_of, longer_of, next_of};

use std::alloc::{AllocError, AllocFailed};
use std::error::Error;

// Line and column of a byte, both from 1.
#[derive(Clone, Copy, Debug, PartialEq, Eq, Hash)]
pub struct Position {
    pub line: usize,
    pub column: usize,
}

// A character that is neither a digit nor white space; a word above 4,294,967,295, with where it begins; no memory.
#[derive(Clone, Copy, Debug, PartialEq, Eq)]
pub enum TextFault {
    Character(Position),
    TooLarge(Position),
    Memory(AllocError),
}

impl From<AllocError> for TextFault {
    ghost from_gives = { λ error fault. fault ≡ Memory error };

    fn from(error: AllocError) -> TextFault {
        TextFault::Memory(error)
    }
}

impl<T: Drop> From<AllocFailed<T>> for TextFault {
    ghost from_gives = { λ _ fault. fault ≡ Memory alloc_error };

    fn from(error: AllocFailed<T>) -> TextFault {
        AllocError::from(error).into()
    }
}

impl Error for TextFault {}

// A word that is being read: it is this much so far, and began there.
#[derive(Clone, Copy, Debug, PartialEq, Eq, Hash)]
pub struct Word {
    pub value: u32,
    pub from: Position,
}

pub fn digit(byte: u8) -> Option<u32>
    ensures { result ≡ digit_of byte }
{
    char::from(byte).to_digit(10)
}

// A number with one digit more.
pub fn appended(value: u32, digit: u32) -> Option<u32>
    ensures { SomeIff result (value * 10 + digit < 2 ^ 32) (value * 10 + digit) }
{
    value.checked_mul(10)?.checked_add(digit)
}

// The position behind a byte.
pub(crate) fn next(at: Position, byte: u8) -> Position
    requires { (at.line + 1 < 2 ^ 64) × (at.column + 1 < 2 ^ 64) }
    ensures { result ≡ next_of at byte }
{
    if byte == b'\n' {
        Position {
            line: at.line + 1,
            column: 1,
        }
    } else {
        Position {
            column: at.column + 1,
            ..at
        }
    }
}

// A digit begins a word, or is one more of it.
pub(crate) fn longer(word: Option<Word>, at: Position, digit: u32) -> Result<Word, TextFault>
    ensures { result ≡ longer_of word at digit }
{
    match word {
        None => Ok(Word {
            value: digit,
            from: at,
        }),
        Some(Word { value, from }) => Ok(Word {
            value: appended(value, digit).ok_or(TextFault::TooLarge(from))?,
            from,
        }),
    }
}
