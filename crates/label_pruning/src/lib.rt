// Label pruning: a label that no break inside targets gives way to its statements.
#![tactic(auto)]

ghost use Rattle.label_pruning.specs.Promises.{PruningFaithful};
ghost use Rattle.label_pruning.specs.Examples.{Examples};

// A pruned function does what it did, in no more steps, for hosts with states of any type S.
pub fn label_pruning_is_faithful<S>() -> u8
    ensures { PruningFaithful S }
{
    0
}

// The table of examples: which labels go, and which stay.
pub fn examples_hold() -> u8
    ensures { Examples }
{
    0
}
