// The words that a text says.
ghost use Rattle.text.specs.Read.{Reads};

use crate::character::{Position, TextFault, digit, longer, next};
use std::alloc::Global;

pub fn words(heap: Global, text: &[u8]) -> Result<Vec<u32>, TextFault>
    ensures { Reads text.now result }
{
    let mut words = Vec::new(heap);
    let mut word = None;
    let mut at = Position { line: 1, column: 1 };
    for byte in text {
        if let Some(digit) = digit(*byte) {
            word = Some(longer(word, at, digit)?);
        } else if byte.is_ascii_whitespace() {
            if let Some(ended) = word.take() {
                words.push(ended.value)?;
            }
        } else {
            return Err(TextFault::Character(at));
        }
        at = next(at, *byte);
    }
    if let Some(last) = word {
        words.push(last.value)?;
    }
    Ok(words)
}
