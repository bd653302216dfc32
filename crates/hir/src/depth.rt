// How deep blocks, and the values of a statement, may lie inside one another.
ghost use Rattle.std.specs.Prelude.{◌≡◌};

// A call and no number: where a caller's promise is checked, the levels of what a slot stands for would all be opened.
pub fn deepest() -> u32
    ensures { result ≡ 64 }
{
    64
}
