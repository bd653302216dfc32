// What holds of what is read, and examples. Each function here answers 0: its contract is the law.
ghost use Rattle.screen.specs.Laws.{ReadsBack, Examples};

// A number is read again from the digits that are written of it.
pub fn numbers_read_back() -> u8
    ensures { ReadsBack }
{
    0
}

// What some arguments ask, some numbers say and some stores start with.
pub fn examples_as_listed() -> u8
    ensures { Examples }
{
    0
}
