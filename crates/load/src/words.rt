// The words of a section, one after another.
ghost use Rattle.std.specs.Prelude.{◌≡◌};
ghost use Rattle.format.specs.Parse.{word, below as below_n, order as order_word, flag as flag_word};
ghost use Rattle.format.specs.Words.{words};
ghost use Rattle.load.specs.Environments.{none_left};
ghost use Rattle.load.specs.Reads.{Reads};

use crate::reader::Reader;
use format::fault::FileFault;

// The largest evaluation order, and the largest counter.
const HIGHEST: u32 = 1000000;

impl Reader<'_> {
    // The next word.
    pub fn word(&mut self) -> Result<u32, FileFault>
        ensures { Reads word self.old self.new result }
    {
        match self.rest {
            [a, b, c, d, rest @ ..] => {
                let w = u32::from_le_bytes([*a, *b, *c, *d]);
                self.rest = rest;
                self.at += 1;
                Ok(w)
            }
            _ => Err(FileFault::Reading(self.at)),
        }
    }

    // A word below `n`.
    pub fn below(&mut self, n: u32) -> Result<u32, FileFault>
        ensures { Reads (below_n n) self.old self.new result }
    {
        let at = self.at;
        let w = self.word()?;
        if w < n {
            Ok(w)
        } else {
            Err(FileFault::Reading(at))
        }
    }

    // An evaluation order, or a counter. Not by `below`: what is above passes a limit, and is no misreading.
    pub fn order(&mut self) -> Result<u32, FileFault>
        ensures { Reads order_word self.old self.new result }
    {
        let at = self.at;
        let w = self.word()?;
        if w <= HIGHEST {
            Ok(w)
        } else {
            Err(FileFault::Limit(at))
        }
    }

    pub fn flag(&mut self) -> Result<bool, FileFault>
        ensures { Reads flag_word self.old self.new result }
    {
        Ok(self.below(2)? == 1)
    }

    // Whether no word is left.
    pub fn ended(&self) -> bool
        ensures { result ≡ none_left (words self.now.rest.now) }
    {
        self.rest.len() < 4
    }
}
