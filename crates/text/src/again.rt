// What is promised of a file that is shown. The body does nothing: the contract is what counts.
ghost use Rattle.text.specs.Again.{ShownIsReadAgain};

// The lines that show a file are text that packs to the file again.
pub fn what_is_shown_is_read_again() -> u8
    ensures { ShownIsReadAgain }
{
    0
}
