// Some slots of a table, one after another. Slots are numbers: what refers to them is stored in tables itself, with all memory
// taken at the start, so no reference and no box can stand there.
ghost use Rattle.std.specs.Prelude.{◌≡◌, ◌+◌, ◌-◌, ◌^◌, ◌<◌, ◌≤◌};

#[derive(Clone, Copy)]
pub struct Range {
    pub start: u32,
    pub count: u32,
}

// A constant and no `Default`, since other constants hold it.
pub const EMPTY: Range = Range { start: 0, count: 0 };

impl Range {
    // What is left behind the first `n` slots.
    pub fn behind(self, n: u32) -> Range
        requires within { n ≤ self.count }
        requires fits { self.start + n < 2 ^ 32 }
        ensures start { result.start ≡ self.start + n }
        ensures count { result.count ≡ self.count - n }
    {
        Range {
            start: self.start + n,
            count: self.count - n,
        }
    }
}
