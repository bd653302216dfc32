// The bytes of words, and the words of bytes.
ghost use Rattle.std.specs.Prelude.{◌≡◌, IfOk};
ghost use Rattle.format.specs.Words.{bytes as bytes_of_words, words as words_of_bytes};

use std::alloc::{AllocError, Global};

// Four bytes to a word, the lowest first. A loop, since the proof of a chain that flattens did not close.
pub fn bytes_of(heap: Global, words: &[u32]) -> Result<Vec<u8>, AllocError>
    ensures { IfOk result (λ v. v.items ≡ bytes_of_words words.now) }
{
    let mut bytes = Vec::new(heap);
    for word in words {
        bytes.extend_from_slice(&word.to_le_bytes())?;
    }
    Ok(bytes)
}

// Up to three bytes at the end are no word.
pub fn words_of(heap: Global, bytes: &[u8]) -> Result<Vec<u32>, AllocError>
    ensures { IfOk result (λ v. v.items ≡ words_of_bytes bytes.now) }
{
    let (quads, _) = bytes.as_chunks::<4>();
    quads
        .iter()
        .map(|quad| u32::from_le_bytes(*quad))
        .collect(heap)
}
