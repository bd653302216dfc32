// Where words are written. A word is four bytes, the lowest first.
ghost use Rattle.std.specs.Prelude.{◌≡◌, ◌+◌, ◌*◌, ◌≤◌, [], ◌∷◌, length};
ghost use Rattle.write.specs.Puts.{over, Room, Wrote};

// The next word is number `at` of the buffer.
#[derive(Drop)]
pub struct Writer<'a> {
    pub out: &'a mut [u8],
    pub at: usize,
}

// By its place, and not at the front of a rest, since the pairs at the file's front are written last.
fn put_word(out: &mut [u8], at: usize, word: u32)
    requires { 4 * (at + 1) ≤ length out.old }
    ensures { out.new ≡ over out.old at (word ∷ []) }
{
    let bytes = word.to_le_bytes();
    out[4 * at..4 * at + 4].copy_from_slice(&bytes);
}

impl Writer<'_> {
    pub fn word(&mut self, word: u32)
        requires { Room self.old (word ∷ []) }
        ensures { Wrote self.old self.new (word ∷ []) }
    {
        put_word(self.out, self.at, word);
        self.at += 1;
    }

    // The place is kept in a variable, since it would be read and stored again for each word.
    pub fn words(&mut self, words: &[u32])
        requires { Room self.old words.now }
        ensures { Wrote self.old self.new words.now }
    {
        let out = &mut *self.out;
        let mut at = self.at;
        for word in words {
            put_word(out, at, *word);
            at += 1;
        }
        self.at = at;
    }
}
