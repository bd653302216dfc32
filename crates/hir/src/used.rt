// How many slots of each kind are used.

// An instruction of a sequence is a statement; a place counts wherever it stands. The limits are no invariant of this type, since
// whoever makes such counts would owe them; `Tables` and the reader of a load promise them.
#[derive(Clone, Copy)]
pub struct Used {
    pub statements: u32,
    pub values: u32,
    pub places: u32,
    pub identifiers: u32,
    pub scopes: u32,
    pub declarations: u32,
    pub cases: u32,
}

// A constant and no `Default`: its value is known wherever it stands, and a default only field by field.
pub const UNUSED: Used = Used {
    statements: 0,
    values: 0,
    places: 0,
    identifiers: 0,
    scopes: 0,
    declarations: 0,
    cases: 0,
};

// The limits. The tables and the counts of a load name them.
pub const STATEMENTS: u32 = 2048;

pub const VALUES: u32 = 4096;

pub const PLACES: u32 = 4096;

pub const IDENTIFIERS: u32 = 2048;

pub const SCOPES: u32 = 256;

pub const DECLARATIONS: u32 = 1024;

pub const CASES: u32 = 1024;
