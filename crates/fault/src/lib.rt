// Why a run is refused: each fault has a number and a place.
#![tactic(auto)]

ghost use Rattle.std.specs.Prelude.{◌≡◌};
ghost use Rattle.fault.specs.Faults.{run_number, run_place};

// A store that is shorter than the identifier table, a budget above the largest.
#[derive(Clone, Copy, Debug, PartialEq, Eq, Hash)]
pub enum RunFault {
    StoreTooShort,
    BudgetTooLarge,
}

impl RunFault {
    pub fn number(&self) -> u32
        ensures { result ≡ run_number self.now }
    {
        match self {
            RunFault::StoreTooShort => 12,
            RunFault::BudgetTooLarge => 13,
        }
    }

    // A call that is refused as a whole has no place in the function.
    pub fn place(&self) -> u32
        ensures { result ≡ run_place self.now }
    {
        match self {
            RunFault::StoreTooShort | RunFault::BudgetTooLarge => 0,
        }
    }
}
