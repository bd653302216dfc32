// A function file's words, section by section.
ghost use Rattle.std.specs.Prelude.{◌≡◌, Some, slice_index, take};
ghost use Rattle.text.specs.Sections.{section_of, five_lines};

use crate::line::Words;
use std::fmt;

// A word past the end is 0.
fn word_at(words: &[u32], i: usize) -> usize
    ensures { result ≡ slice_index words.now i }
{
    words.get(i).copied().unwrap_or(0) as usize
}

// The section whose offset and length are those words, as far as there are such words.
fn section(words: &[u32], offset: usize, length: usize) -> &[u32]
    ensures { result.now ≡ section_of offset length words.now }
{
    let start = word_at(words, offset).min(words.len());
    let rest = &words[start..];
    &rest[..word_at(words, length).min(rest.len())]
}

fn pairs(words: &[u32]) -> &[u32]
    ensures { result.now ≡ take 8 words.now }
{
    &words[..words.len().min(8)]
}

// Pairs, counters, identifiers, scopes and body, a line each.
#[derive(Clone, Copy)]
pub struct Sections<'a>(pub &'a [u32]);

impl fmt::Display for Sections<'_> {
    ghost output = { λ sections. Some (five_lines sections.0.now) };

    fn fmt<W: fmt::Write>(&self, f: &mut fmt::Formatter<W>) -> fmt::Result {
        let words = self.0;
        let pairs = Words(pairs(words));
        let counters = Words(section(words, 0, 1));
        let identifiers = Words(section(words, 2, 3));
        let scopes = Words(section(words, 4, 5));
        let body = Words(section(words, 6, 7));
        write!(f, "{pairs}\n{counters}\n{identifiers}\n{scopes}\n{body}\n")
    }
}
