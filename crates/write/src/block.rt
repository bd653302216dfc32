// Blocks and statements, with the blocks inside them. A depth is what is left for the blocks inside: it falls from 64 to 0, while
// the arena stays, so the two are no pair. The arena is no part of the writer: the same one writes counters and scopes.
ghost use Rattle.hir.specs.Decode.{root_of};
ghost use Rattle.hir.specs.Encode.{stmt_words, term_words, cases_words, opt_block_words, block_words};
ghost use Rattle.hir.specs.Held.{slots};
ghost use Rattle.write.specs.Puts.{Writable, Written};
ghost use Rattle.write.specs.Stands.{block_in, alternate_in, cases_in, terminal_in, statement_in};

use crate::encode::Encode;
use crate::writer::Writer;
use hir::arena::Arena;
use hir::depth::deepest;
use hir::statement::ReactiveStatement;
use hir::terminal::{ReactiveBlock, ReactiveSwitchCase, ReactiveTerminal};

impl Writer<'_> {
    // No `Encode`, as for an optional value.
    #[cycle(put_blocks)]
    fn optional_block(&mut self, arena: &Arena, block: Option<ReactiveBlock>, depth: u32)
        requires { Writable opt_block_words (alternate_in depth arena.now block) self.old }
        ensures { Written opt_block_words (alternate_in depth arena.now block) self.old self.new }
    {
        match block {
            None => self.word(0),
            Some(block) => {
                self.word(1);
                self.block(arena, block, depth);
            }
        }
    }

    // The cases of a row, without their count.
    #[cycle(put_blocks)]
    fn cases(&mut self, arena: &Arena, cases: &[ReactiveSwitchCase], depth: u32)
        requires { Writable cases_words (cases_in depth arena.now cases.now) self.old }
        ensures { Written cases_words (cases_in depth arena.now cases.now) self.old self.new }
    {
        for case in cases {
            case.test.put(self);
            self.optional_block(arena, case.block, depth);
        }
    }

    #[cycle(put_blocks)]
    #[tactic(auto, using(crate::proofs::Rooms::lengths))]
    fn terminal(&mut self, arena: &Arena, terminal: ReactiveTerminal, depth: u32)
        requires { Writable term_words (terminal_in depth arena.now terminal) self.old }
        ensures { Written term_words (terminal_in depth arena.now terminal) self.old self.new }
    {
        let values = &arena.inner;
        match terminal {
            ReactiveTerminal::Break {
                target,
                id,
                target_kind,
            } => self.jump(0, target, id, target_kind),
            ReactiveTerminal::Continue {
                target,
                id,
                target_kind,
            } => self.jump(1, target, id, target_kind),
            ReactiveTerminal::Return { value, id } => self.leave(2, value, id),
            ReactiveTerminal::Throw { value, id } => self.leave(3, value, id),
            ReactiveTerminal::Switch { test, cases, id } => {
                self.word(4);
                test.put(self);
                self.word(cases.count);
                self.cases(arena, arena.cases.table.row(cases), depth);
                self.word(id);
            }
            ReactiveTerminal::DoWhile {
                loop_block,
                test,
                id,
            } => {
                self.word(5);
                self.block(arena, loop_block, depth);
                self.top_value(values, test);
                self.word(id);
            }
            ReactiveTerminal::While {
                test,
                loop_block,
                id,
            } => {
                self.word(6);
                self.top_value(values, test);
                self.block(arena, loop_block, depth);
                self.word(id);
            }
            ReactiveTerminal::For {
                init,
                test,
                update,
                loop_block,
                id,
            } => {
                self.word(7);
                self.top_value(values, init);
                self.top_value(values, test);
                self.optional_value(values, update);
                self.block(arena, loop_block, depth);
                self.word(id);
            }
            ReactiveTerminal::ForOf {
                init,
                test,
                loop_block,
                id,
                span,
            } => {
                self.word(8);
                self.top_value(values, init);
                self.top_value(values, test);
                self.block(arena, loop_block, depth);
                self.words(&[id, span]);
            }
            ReactiveTerminal::ForIn {
                init,
                loop_block,
                id,
                span,
            } => {
                self.word(9);
                self.top_value(values, init);
                self.block(arena, loop_block, depth);
                self.words(&[id, span]);
            }
            ReactiveTerminal::If {
                test,
                consequent,
                alternate,
                id,
            } => {
                self.word(10);
                test.put(self);
                self.block(arena, consequent, depth);
                self.optional_block(arena, alternate, depth);
                self.word(id);
            }
            ReactiveTerminal::Label { block, id } => {
                self.word(11);
                self.block(arena, block, depth);
                self.word(id);
            }
            ReactiveTerminal::Try {
                block,
                handler_binding,
                handler,
                id,
            } => {
                self.word(12);
                self.block(arena, block, depth);
                handler_binding.put(self);
                self.block(arena, handler, depth);
                self.word(id);
            }
        }
    }

    #[cycle(put_blocks)]
    fn statement(&mut self, arena: &Arena, statement: ReactiveStatement, depth: u32)
        requires { Writable stmt_words (statement_in depth arena.now statement) self.old }
        ensures { Written stmt_words (statement_in depth arena.now statement) self.old self.new }
    {
        match statement {
            ReactiveStatement::Instruction(instruction) => {
                self.word(0);
                self.top_instruction(&arena.inner, instruction);
            }
            ReactiveStatement::Terminal(statement) => {
                self.word(1);
                self.terminal(arena, statement.terminal, depth);
                statement.label.put(self);
            }
            ReactiveStatement::Scope(block) => {
                self.words(&[2, block.scope]);
                self.block(arena, block.instructions, depth);
            }
            ReactiveStatement::PrunedScope(block) => {
                self.words(&[3, block.scope]);
                self.block(arena, block.instructions, depth);
            }
        }
    }

    #[cycle(put_blocks)]
    fn block(&mut self, arena: &Arena, block: ReactiveBlock, depth: u32)
        requires { Writable block_words (block_in depth arena.now block) self.old }
        ensures { Written block_words (block_in depth arena.now block) self.old self.new }
    {
        self.word(block.count);
        for slot in arena.entries.table.row(block) {
            self.statement(arena, arena.statements.at(*slot), depth - 1);
        }
    }

    // The body of a function.
    pub fn body(&mut self, arena: &Arena, root: ReactiveBlock)
        requires { Writable block_words (root_of (slots arena.now) root) self.old }
        ensures { Written block_words (root_of (slots arena.now) root) self.old self.new }
    {
        self.block(arena, root, deepest());
    }
}
