// Worked examples of the run.
ghost use Rattle.semantics.specs.Examples.{AsListed};

// Every row of the table comes out as listed.
pub fn examples_run_as_listed() -> u8
    ensures { AsListed }
{
    0
}
