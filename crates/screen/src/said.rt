// The lines that tell how a run went.
ghost use Rattle.std.specs.Prelude.{Some};
ghost use Rattle.screen.specs.Said.{lines};

use semantics::Ran;
use std::fmt;
use text::line::Spaced;

// How a run went, with the store that it left, and the number of answers that it did not ask for.
#[derive(Clone, Copy)]
pub struct Report<'a> {
    pub ran: Ran,
    pub store: &'a [u32],
    pub unused: usize,
}

// An empty store is a line with no space.
impl fmt::Display for Report<'_> {
    ghost output = { λ report. Some (lines report.ran report.store.now report.unused) };

    fn fmt<W: fmt::Write>(&self, f: &mut fmt::Formatter<W>) -> fmt::Result {
        let Ran {
            outcome,
            steps,
            entries,
            recorded,
        } = self.ran;
        writeln!(f, "outcome {outcome}")?;
        writeln!(f, "steps {steps}")?;
        writeln!(f, "entries {entries}")?;
        writeln!(f, "record {}", u8::from(recorded))?;
        writeln!(f, "store{}", Spaced(self.store))?;
        writeln!(f, "unused {}", self.unused)
    }
}
