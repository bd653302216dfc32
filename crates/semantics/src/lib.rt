// What a run of a function answers. Its definition stands in specs/.
#![tactic(auto)]

ghost use Rattle.std.specs.Prelude.{Some};
ghost use Rattle.semantics.specs.Words.{outcome_words};

use std::fmt;

pub mod examples;
pub mod laws;

#[derive(Clone, Copy, Debug, PartialEq, Eq, Hash)]
pub enum Outcome {
    Returned(u32),
    Thrown(u32),
    Ended,
    Spent,
}

// The outcome, with the steps that were begun, the entries to recorded scopes, and whether a record returned.
#[derive(Clone, Copy)]
pub struct Ran {
    pub outcome: Outcome,
    pub steps: u32,
    pub entries: u32,
    pub recorded: bool,
}

impl fmt::Display for Outcome {
    ghost output = { λ outcome. Some (outcome_words outcome) };

    fn fmt<W: fmt::Write>(&self, f: &mut fmt::Formatter<W>) -> fmt::Result {
        match self {
            Outcome::Returned(value) => write!(f, "returned {value}"),
            Outcome::Thrown(value) => write!(f, "thrown {value}"),
            Outcome::Ended => write!(f, "ended"),
            Outcome::Spent => write!(f, "spent"),
        }
    }
}
