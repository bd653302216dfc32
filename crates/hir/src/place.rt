// Where a value is read or written: an identifier, with what happens to it there.

#[derive(Clone, Copy)]
pub enum Effect {
    Unknown = 0,
    Freeze = 1,
    Read = 2,
    Capture = 3,
    ConditionallyMutateIterator = 4,
    ConditionallyMutate = 5,
    Mutate = 6,
    Store = 7,
}

// A span is the caller's code for a piece of source text; 0 is none.
#[derive(Clone, Copy)]
pub struct Place {
    pub identifier: u32,
    pub effect: Effect,
    pub reactive: bool,
    pub span: u32,
}
