// Where the sections of a file lie, and a reader for each.
ghost use Rattle.std.specs.Prelude.{◌≡◌, ◌+◌, ◌*◌, ◌≤◌, length, slice_index};
ghost use Rattle.hir.specs.Limits.{Within, limits};
ghost use Rattle.format.specs.Parse.{pair};
ghost use Rattle.format.specs.Words.{words};
ghost use Rattle.load.specs.Files.{section_cursor, Finishes};
ghost use Rattle.load.specs.Reads.{cursor};

use crate::reader::Reader;
use format::fault::FileFault;
use hir::used::Used;

// A word of the file, by its number.
fn word_at(bytes: &[u8], at: usize) -> u32
    requires { at * 4 + 4 ≤ length bytes.now }
    ensures { result ≡ slice_index (words bytes.now) at }
{
    let (quads, _) = bytes.as_chunks::<4>();
    u32::from_le_bytes(quads[at])
}

// The end of the section whose pair is at a word, where it begins at `from` as it should; the last one ends with the file.
// `last` is told, as by the format's definition: the two ways differ in one comparison. `total` is told too: to count it here would ask for a bound of the bytes.
pub fn read_pair(bytes: &[u8], at: u32, last: bool, from: u32, total: u32) -> Result<u32, FileFault>
    requires total { total ≡ length (words bytes.now) }
    requires head { at ≤ 6 }
    requires long { 48 ≤ length bytes.now }
    requires from { from ≤ total }
    ensures { result ≡ pair (words bytes.now) at last from }
{
    let offset = word_at(bytes, at as usize);
    if offset != from {
        return Err(FileFault::Pairs(at));
    }
    let length = word_at(bytes, at as usize + 1);
    let fits = if last {
        length == total - from
    } else {
        length <= total - from
    };
    if fits {
        Ok(from + length)
    } else {
        Err(FileFault::Pairs(at + 1))
    }
}

// A reader of the words from `from` to `to`.
pub fn section<'a>(bytes: &'a [u8], from: u32, to: u32, used: Used) -> Reader<'a>
    requires order { from ≤ to }
    requires inside { to * 4 ≤ length bytes.now }
    requires near { to ≤ 16384 }
    requires limited { Within used limits }
    ensures { cursor result ≡ section_cursor (words bytes.now) from to used }
{
    Reader {
        rest: &bytes[from as usize * 4..to as usize * 4],
        at: from,
        used,
    }
}

impl Reader<'_> {
    // A section is read to its exact end.
    pub fn finish(&self) -> Result<Used, FileFault>
        ensures { Finishes (cursor self.now) result }
    {
        if self.ended() {
            Ok(self.used)
        } else {
            Err(FileFault::Reading(self.at))
        }
    }
}
