// A section of the file, with the place that the reading has reached and how many items of each kind have begun.
ghost use Rattle.std.specs.Prelude.{◌+◌, ◌≤◌, length};
ghost use Rattle.hir.specs.Limits.{Within, limits};
ghost use Rattle.format.specs.Words.{words};

use hir::used::Used;

// `at` is the number of the next word in the file, which has at most 16,384 of them.
// The tables that are filled stay a parameter: a part of them, lent out of a struct that holds them, gets no proof.
#[derive(Drop)]
pub struct Reader<'a> {
    pub rest: &'a [u8],
    pub at: u32,
    pub used: Used,
    ghost near: { at + length (words rest.now) ≤ 16384 },
    ghost limited: { Within used limits },
}
