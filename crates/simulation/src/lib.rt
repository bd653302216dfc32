// What it means that a change keeps what a function does, and that such changes compose.
#![tactic(auto)]

ghost use Rattle.simulation.specs.Faithful.{IdentityFaithful, CompositionFaithful};

// The change that leaves every function as it is is faithful, for hosts with states of any type S.
pub fn identity_is_faithful<S>() -> u8
    ensures { IdentityFaithful S }
{
    0
}

// One faithful change after another is faithful.
pub fn faithful_transforms_compose<S>() -> u8
    ensures { CompositionFaithful S }
{
    0
}
