// What a terminal has of its own, and the values inside it.
ghost use Rattle.std.specs.Prelude.{◌≡◌, ◌+◌, ◌≤◌, ◌&&◌, length};
ghost use Rattle.questions.specs.Around.{around_of};
ghost use Rattle.questions.specs.Parts.{ValuesIn, tests_well, row_cases, parts_in, parts_line, OwnValues, PassedValues};
ghost use Rattle.questions.specs.Pass.{slots_in, values_in};
ghost use Rattle.questions.specs.Questions.{label_in};

use crate::around::Around;
use crate::line::{Bounds, Line};
use crate::operations::Own;
use crate::parts::Parts;
use crate::pass::Pass;
use hir::terminal::{ReactiveLabel, ReactiveSwitchCase};

impl Bounds {
    // Whether the tests of switch cases are in their table.
    fn tests(self, cases: &[ReactiveSwitchCase]) -> bool
        ensures { result ≡ tests_well self cases.now }
    {
        cases.iter().all(|case| self.optional_place(case.test))
    }
}

impl Pass<'_> {
    // The operations of a terminal's values.
    #[tactic(auto, using(crate::proofs::ValueParts::own_append))]
    pub fn values_own(&self, parts: Parts) -> Own
        requires { ValuesIn (values_in self.now) parts }
        ensures { OwnValues (values_in self.now) parts self.now.bounds result }
    {
        let init = self.inside_own(parts.init);
        let test = self.inside_own(parts.test);
        let update = self.inside_own(parts.update);
        init.and(test.and(update))
    }

    // The instructions inside a terminal's values, in file order.
    #[tactic(auto, using(crate::proofs::Passing::passed_append))]
    pub fn values_inside(&mut self, parts: Parts)
        requires { ValuesIn (values_in self.old) parts }
        ensures { PassedValues parts self.old self.new }
    {
        self.inside(parts.init);
        self.inside(parts.test);
        self.inside(parts.update);
    }

    // Whether a terminal's own numbers are in range.
    fn parts_well(&self, parts: Parts, label: Option<ReactiveLabel>) -> bool
        requires { parts.cases.start + parts.cases.count ≤ length (slots_in self.now).cases }
        ensures { result ≡ (label_in self.now.bounds label && parts_in self.now.bounds parts (row_cases (slots_in self.now) parts)) }
    {
        let bounds = self.bounds;
        label.is_none_or(|label| label.id < bounds.blocks)
            && bounds.optional_place(parts.place)
            && parts.jump.is_none_or(|jump| bounds.jump(jump))
            && bounds.tests(self.arena.cases.table.row(parts.cases))
    }

    // A terminal's answers, by its parts and the answers of its operations.
    pub fn terminal_line(
        &self,
        parts: Parts,
        label: Option<ReactiveLabel>,
        own: Own,
        around: &Around<'_>,
    ) -> Line
        requires { parts.cases.start + parts.cases.count ≤ length (slots_in self.now).cases }
        ensures { result ≡ parts_line self.now.bounds parts label (around_of around.now) (row_cases (slots_in self.now) parts) own }
    {
        Line {
            numbers: self.parts_well(parts, label) && own.numbers,
            shapes: own.shapes,
            targets: around.aims(parts.jump),
            owns: None,
        }
    }
}
