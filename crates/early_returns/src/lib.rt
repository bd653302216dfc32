// The pass that carries early returns out of reactive scopes: what is promised of it, each promise by a function that carries it.
#![tactic(auto)]

ghost use Rattle.early_returns.specs.Faithful.{LoweringFaithful};
ghost use Rattle.early_returns.specs.Promises.{PassIsDescription, LoweredOnce};
ghost use Rattle.early_returns.specs.Examples.{Examples};

// The pass as it is published gives what the description of lowering says, for every well-formed function.
pub fn the_pass_is_the_description() -> u8
    ensures { PassIsDescription }
{
    0
}

// Lowering is faithful, for hosts with states of any type S: the lowered function is well-formed and, unless the function
// returns the sentinel, ends exactly when it does, with the same outcome and host state and no more bare steps.
pub fn lowering_is_faithful<S>() -> u8
    ensures { LoweringFaithful S }
{
    0
}

// A lowered function lowered again is the same.
pub fn a_lowered_function_lowered_again_is_the_same() -> u8
    ensures { LoweredOnce }
{
    0
}

// The table of examples: functions before and after lowering, and the first of them run, for hosts with states of any type S.
pub fn examples_hold<S>() -> u8
    ensures { Examples S }
{
    0
}
