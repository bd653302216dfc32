// The four pairs at the file's front: where each section begins, and its length.
ghost use Rattle.std.specs.Prelude.{◌-◌, ◌^◌, ◌<◌, ◌≤◌, [], ◌∷◌};
ghost use Rattle.write.specs.Puts.{Room, Wrote};

use crate::writer::Writer;

impl Writer<'_> {
    fn pair(&mut self, start: usize, end: usize)
        requires order { (start ≤ end) × (end < 2 ^ 32) }
        requires room { Room self.old (start ∷ (end - start) ∷ []) }
        ensures { Wrote self.old self.new (start ∷ (end - start) ∷ []) }
    {
        self.words(&[start as u32, (end - start) as u32]);
    }

    // The sections end at the given words, the last with the file; the first begins at word 8.
    pub fn pairs(&mut self, counters: usize, identifiers: usize, scopes: usize, words: u32)
        requires order { (8 ≤ counters) × ((counters ≤ identifiers) × ((identifiers ≤ scopes) × (scopes ≤ words))) }
        requires room { Room self.old (8 ∷ (counters - 8) ∷ counters ∷ (identifiers - counters) ∷ identifiers ∷ (scopes - identifiers) ∷ scopes ∷ (words - scopes) ∷ []) }
        ensures { Wrote self.old self.new (8 ∷ (counters - 8) ∷ counters ∷ (identifiers - counters) ∷ identifiers ∷ (scopes - identifiers) ∷ scopes ∷ (words - scopes) ∷ []) }
    {
        self.pair(8, counters);
        self.pair(counters, identifiers);
        self.pair(identifiers, scopes);
        self.pair(scopes, words as usize);
    }
}
