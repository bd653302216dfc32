// Blocks, their statements and what is inside them, in file order.
ghost use Rattle.std.specs.Prelude.{◌≡◌};
ghost use Rattle.questions.specs.Around.{around_of};
ghost use Rattle.questions.specs.Own.{Decodes};
ghost use Rattle.questions.specs.Pass.{Passed};
ghost use Rattle.questions.specs.Questions.{block_lines, opt_block_lines, cases_lines, stmt_lines, scope_line};
ghost use Rattle.questions.specs.Rows.{block_at, optional_at, cases_at, terminal_at, statement_at, labelled_lines};

use crate::around::Around;
use crate::line::{Bounds, Line};
use crate::parts::view;
use crate::pass::Pass;
use hir::range::Range;
use hir::statement::ReactiveStatement;
use hir::terminal::{ReactiveBlock, ReactiveTerminalStatement};

impl Bounds {
    // The answers of a Scope block, or of a pruned one, which owns no scope.
    fn scope(self, scope: u32, owns: Option<u32>) -> Line
        ensures { result ≡ scope_line self scope owns }
    {
        Line {
            numbers: scope < self.scopes,
            shapes: true,
            targets: true,
            owns,
        }
    }
}

// A Scope block takes a level of the depth and adds nothing around, so the two are no one value.
impl Pass<'_> {
    // A block that may be missing.
    #[cycle(blocks)]
    fn optional(&mut self, block: Option<ReactiveBlock>, depth: u32, around: &Around<'_>)
        requires { Decodes (optional_at depth self.old block) }
        ensures { Passed (optional_at depth self.old block) (λ b. opt_block_lines self.old.bounds b (around_of around.now)) self.old self.new }
    {
        if let Some(block) = block {
            self.block(block, depth, around);
        }
    }

    // The blocks of a switch.
    #[cycle(blocks)]
    fn cases(&mut self, cases: Range, depth: u32, around: &Around<'_>)
        requires { Decodes (cases_at depth self.old cases) }
        ensures { Passed (cases_at depth self.old cases) (λ b. cases_lines self.old.bounds b (around_of around.now)) self.old self.new }
    {
        let arena = self.arena;
        for case in arena.cases.table.row(cases) {
            self.optional(case.block, depth, around);
        }
    }

    // A terminal with all that is inside it. What stands around its own jump is without its label.
    #[cycle(blocks)]
    fn terminal(&mut self, shown: ReactiveTerminalStatement, depth: u32, around: &Around<'_>)
        requires { Decodes (terminal_at depth self.old shown.terminal) }
        ensures { Passed (terminal_at depth self.old shown.terminal) (labelled_lines self.old.bounds shown.label (around_of around.now)) self.old self.new }
    {
        let parts = view(shown.terminal);
        let own = self.values_own(parts);
        let line = self.terminal_line(parts, shown.label, own, around);
        self.found.note(line);
        let inner = around.within(shown.label, parts.inside);
        self.optional(parts.leading, depth, &inner);
        self.values_inside(parts);
        self.optional(parts.block, depth, &inner);
        self.optional(parts.other, depth, &inner);
        self.cases(parts.cases, depth, &inner);
    }

    // The statement in a slot, with all that is inside it.
    #[cycle(blocks)]
    fn statement(&mut self, slot: u32, depth: u32, around: &Around<'_>)
        requires { Decodes (statement_at depth self.old slot) }
        ensures { Passed (statement_at depth self.old slot) (λ s. stmt_lines self.old.bounds s (around_of around.now)) self.old self.new }
    {
        match self.arena.statements.at(slot) {
            ReactiveStatement::Instruction(top) => self.top_instruction(top),
            ReactiveStatement::Terminal(shown) => self.terminal(shown, depth, around),
            ReactiveStatement::Scope(shown) => {
                self.found
                    .note(self.bounds.scope(shown.scope, Some(shown.scope)));
                self.block(shown.instructions, depth, around);
            }
            ReactiveStatement::PrunedScope(shown) => {
                self.found.note(self.bounds.scope(shown.scope, None));
                self.block(shown.instructions, depth, around);
            }
        }
    }

    // A block at most `depth` deep. A row is two numbers, so it is the depth that tells that calls end.
    #[cycle(blocks)]
    pub fn block(&mut self, block: ReactiveBlock, depth: u32, around: &Around<'_>)
        requires { Decodes (block_at depth self.old block) }
        ensures { Passed (block_at depth self.old block) (λ b. block_lines self.old.bounds b (around_of around.now)) self.old self.new }
    {
        let arena = self.arena;
        for slot in arena.entries.table.row(block) {
            self.statement(*slot, depth - 1, around);
        }
    }
}
