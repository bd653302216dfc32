// The two lines that tell a refusal: its number, and what it means, with the place where it has one.
ghost use Rattle.std.specs.Prelude.{Some};
ghost use Rattle.screen.specs.Refusal.{refusal_lines, usage};

use fault::RunFault;
use format::fault::{CheckFault, FileFault, LoadFault};
use std::fmt;

// Why a file is not run.
#[derive(Clone, Copy, Debug, PartialEq, Eq, Hash)]
pub enum Refusal {
    Load(LoadFault),
    Run(RunFault),
}

// A fault in a table has the place of statement 0.
impl fmt::Display for Refusal {
    ghost output = { λ refusal. Some (refusal_lines refusal) };

    fn fmt<W: fmt::Write>(&self, f: &mut fmt::Formatter<W>) -> fmt::Result {
        match self {
            Refusal::Load(LoadFault::File(FileFault::Length)) => writeln!(
                f,
                "refused 1\nthe length is no multiple of 4 from 48 to 65536 bytes"
            ),
            Refusal::Load(LoadFault::File(FileFault::Pairs(word))) => writeln!(
                f,
                "refused 2\nword {word}: the pairs do not say where the sections stand"
            ),
            Refusal::Load(LoadFault::File(FileFault::Reading(word))) => writeln!(
                f,
                "refused 3\nword {word}: a section ends elsewhere, or a case, option or flag is out of range"
            ),
            Refusal::Load(LoadFault::File(FileFault::Limit(word))) => {
                writeln!(f, "refused 4\nword {word}: a limit is passed")
            }
            Refusal::Load(LoadFault::Check(CheckFault::Numbers(at))) => writeln!(
                f,
                "refused 5\nstatement {at}: a number is not in its table, or not below its counter"
            ),
            Refusal::Load(LoadFault::Check(CheckFault::Shapes(at))) => writeln!(
                f,
                "refused 6\nstatement {at}: a value has not the places that its kind asks for"
            ),
            Refusal::Load(LoadFault::Check(CheckFault::Targets(at))) => writeln!(
                f,
                "refused 7\nstatement {at}: a jump has no target around it"
            ),
            Refusal::Load(LoadFault::Check(CheckFault::Scopes(at))) => writeln!(
                f,
                "refused 8\nstatement {at}: a scope has a record, or a second Scope block"
            ),
            Refusal::Run(RunFault::StoreTooShort) => writeln!(
                f,
                "refused 12\nthe store is shorter than the identifier table"
            ),
            Refusal::Run(RunFault::BudgetTooLarge) => {
                writeln!(f, "refused 13\nthe budget is above 1000000000")
            }
        }
    }
}

// What wrong arguments get.
#[derive(Clone, Copy, Debug, PartialEq, Eq, Hash)]
pub struct Usage;

impl fmt::Display for Usage {
    ghost output = { λ _. Some usage };

    fn fmt<W: fmt::Write>(&self, f: &mut fmt::Formatter<W>) -> fmt::Result {
        writeln!(f, "usage: run_screen [--number] FILE BUDGET [VALUE ...]")
    }
}
