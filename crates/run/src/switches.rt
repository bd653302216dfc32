// The turns of switches.
ghost use Rattle.std.specs.Prelude.{◌≡◌, ◌<◌, Some, None};
ghost use Rattle.hir.specs.Options.{nth};
ghost use Rattle.run.specs.Turn.{Due, Same, Turns};
ghost use Rattle.run.specs.declared.frame.Frame.TheVariants.{Selects as SelectsFrame, Cases as CasesFrame};

use crate::frame::{Frame, Selection};
use crate::machine::Machine;
use hir::place::Place;
use hir::range::Range;
use hir::terminal::ReactiveSwitchCase;
use host::{Host, Question};

impl<'a, H: Host> Machine<'a, H> {
    // Three methods are below it, one for each rule that the definition of a run has for a switch's choice.
    pub(crate) fn on_selects(&mut self, selection: Selection, label: Option<u32>, depth: u32)
        requires { Due H.Host self.old (SelectsFrame selection label depth) }
        ensures same { Same self.old self.new }
        ensures turns { Turns H.Host self.old (SelectsFrame selection label depth) self.new }
    {
        if selection.rest.count == 0 {
            self.on_unselected(selection, label, depth)
        } else {
            self.on_case(selection, label, depth)
        }
    }

    fn on_unselected(&mut self, selection: Selection, label: Option<u32>, depth: u32)
        requires due { Due H.Host self.old (SelectsFrame selection label depth) }
        requires none { selection.rest.count ≡ 0 }
        ensures same { Same self.old self.new }
        ensures turns { Turns H.Host self.old (SelectsFrame selection label depth) self.new }
    {
        let place = selection.default.unwrap_or(selection.next);
        self.memory.choose(selection.all, place, label, depth);
    }

    fn on_case(&mut self, selection: Selection, label: Option<u32>, depth: u32)
        requires due { Due H.Host self.old (SelectsFrame selection label depth) }
        requires some { 0 < selection.rest.count }
        ensures same { Same self.old self.new }
        ensures turns { Turns H.Host self.old (SelectsFrame selection label depth) self.new }
    {
        let case = self.tables.arena.cases.table.at(selection.rest.start);
        match case.test {
            None => self.on_untested(selection, label, depth, case),
            Some(test) => self.on_tested(selection, label, depth, case, test),
        }
    }

    fn on_untested(
        &mut self,
        selection: Selection,
        label: Option<u32>,
        depth: u32,
        case: ReactiveSwitchCase,
    )
        requires due { Due H.Host self.old (SelectsFrame selection label depth) }
        requires some { 0 < selection.rest.count }
        requires here { nth self.old.tables.now.arena.cases.table.vec.items selection.rest.start ≡ Some case }
        requires is { case.test ≡ None }
        ensures same { Same self.old self.new }
        ensures turns { Turns H.Host self.old (SelectsFrame selection label depth) self.new }
    {
        let selection = Selection {
            default: selection.default.or(Some(selection.next)),
            ..selection.passed()
        };
        self.memory.push(Frame::Selects {
            selection,
            label,
            depth,
        });
    }

    fn on_tested(
        &mut self,
        selection: Selection,
        label: Option<u32>,
        depth: u32,
        case: ReactiveSwitchCase,
        test: Place,
    )
        requires due { Due H.Host self.old (SelectsFrame selection label depth) }
        requires some { 0 < selection.rest.count }
        requires here { nth self.old.tables.now.arena.cases.table.vec.items selection.rest.start ≡ Some case }
        requires is { case.test ≡ Some test }
        ensures same { Same self.old self.new }
        ensures turns { Turns H.Host self.old (SelectsFrame selection label depth) self.new }
    {
        let question = Question {
            kind: 43,
            payload: 0,
            position: 0,
        };
        let asked = self.look(test.identifier);
        let reply = self.host.ask(question, &[selection.value, asked]);
        let Some(v) = self.memory.answered(reply) else {
            return;
        };
        if v != 0 {
            self.memory
                .choose(selection.all, selection.next, label, depth);
        } else {
            self.memory.given = v;
            self.memory.push(Frame::Selects {
                selection: selection.passed(),
                label,
                depth,
            });
        }
    }

    pub(crate) fn on_cases(&mut self, rest: Range, depth: u32)
        requires { Due H.Host self.old (CasesFrame rest depth) }
        ensures same { Same self.old self.new }
        ensures turns { Turns H.Host self.old (CasesFrame rest depth) self.new }
    {
        if rest.count == 0 {
            return;
        }
        let case = self.tables.arena.cases.table.at(rest.start);
        let rest = rest.behind(1);
        self.memory.push(Frame::Cases { rest, depth });
        if let Some(block) = case.block {
            self.memory.push(Frame::Block { rest: block, depth });
        }
    }
}
