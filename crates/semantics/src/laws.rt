// What holds of every run. Each function here answers 0: its contract is the law, for hosts with states of any type S.
ghost use Rattle.semantics.specs.Laws.{LargerBudgets, OneResult, SpentExactly, MoreRounds, RoundsAgree, RecordsOnce, NoJumpLeaves};
ghost use Rattle.semantics.specs.Below.{OnlyTable};

// A run that is not spent has the same result under every larger budget.
pub fn larger_budgets_change_nothing<S>() -> u8
    ensures { LargerBudgets S }
{
    0
}

// All budgets with which a run is not spent give one result.
pub fn every_sufficient_budget_gives_one_result<S>() -> u8
    ensures { OneResult S }
{
    0
}

// A run is spent exactly when it wants one step more than its budget, and then it has used the budget up.
pub fn spent_exactly_when_a_step_is_missing<S>() -> u8
    ensures { SpentExactly S }
{
    0
}

// A run with a bound on each loop's rounds and no budget, where it ends, has the same result under every larger bound.
pub fn more_rounds_change_nothing<S>() -> u8
    ensures { MoreRounds S }
{
    0
}

// That run and the one with a budget agree: each ends where the other does, with the same result.
pub fn rounds_agree_with_budgets<S>() -> u8
    ensures { RoundsAgree S }
{
    0
}

// A run looks at and changes only the places of the identifier table.
pub fn runs_stay_within_the_table<S>() -> u8
    ensures { OnlyTable S }
{
    0
}

// A record returns at most once in a run, and only where the run returns.
pub fn a_record_returns_at_most_once<S>() -> u8
    ensures { RecordsOnce S }
{
    0
}

// A run that is not spent ends normally, returns or throws: no jump leaves the function.
pub fn no_jump_leaves_a_function<S>() -> u8
    ensures { NoJumpLeaves S }
{
    0
}
