// The answers of one statement to the four questions, and what is found so far.
ghost use Rattle.std.specs.Prelude.{◌≡◌};
ghost use Rattle.questions.specs.Findings.{earliest, claimed, unclaimed, step};

use hir::used::SCOPES;
use std::mem;

// What numbers are held to: the lengths of the tables, and the counters.
#[derive(Clone, Copy)]
pub struct Bounds {
    pub identifiers: u32,
    pub scopes: u32,
    pub blocks: u32,
    pub types: u32,
    pub ranges: u32,
}

// Whether a statement's own numbers, operations and target are well, and the scope whose Scope block it is.
#[derive(Clone, Copy)]
pub struct Line {
    pub numbers: bool,
    pub shapes: bool,
    pub targets: bool,
    pub owns: Option<u32>,
}

// The number of the next statement, that of the first one with a no to each question, and a mark at each scope whose Scope
// block came earlier: an array, since a load takes no memory.
#[derive(Drop)]
pub struct Findings {
    pub next: u32,
    pub numbers: Option<u32>,
    pub shapes: Option<u32>,
    pub targets: Option<u32>,
    pub scopes: Option<u32>,
    pub seen: [bool; SCOPES as usize],
}

// A constant and no `Default`: its value is known wherever it stands.
pub const NOTHING: Findings = Findings {
    next: 0,
    numbers: None,
    shapes: None,
    targets: None,
    scopes: None,
    seen: [false; SCOPES as usize],
};

// What was found earlier, or else this number, unless all is well.
fn first(found: Option<u32>, well: bool, number: u32) -> Option<u32>
    ensures { result ≡ earliest found well number }
{
    found.or((!well).then_some(number))
}

impl Findings {
    // Adds a statement's answers. No tables hold so many statements that the count could wrap.
    pub fn note(&mut self, line: Line)
        ensures { self.new ≡ step line self.old }
    {
        // a match, since of a closure that changes the findings a proof would know less
        let fresh = match line.owns {
            Some(scope) => self.claim(scope),
            None => true,
        };
        let number = self.next;
        self.next = number.wrapping_add(1);
        self.numbers = first(self.numbers, line.numbers, number);
        self.shapes = first(self.shapes, line.shapes, number);
        self.targets = first(self.targets, line.targets, number);
        self.scopes = first(self.scopes, fresh, number);
    }

    // Marks the scope of a Scope block, and tells whether it is the first of that scope.
    fn claim(&mut self, scope: u32) -> bool
        ensures fresh { result ≡ unclaimed self.old.seen scope }
        ensures marks { self.new ≡ record self.old { seen = claimed self.old.seen scope } }
    {
        let place = scope as usize;
        place >= self.seen.len() || !mem::replace(&mut self.seen[place], true)
    }
}
