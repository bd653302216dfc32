// Blocks, statements and terminals, from the inside out: a statement takes its slot after what is inside it. `depth` is how deep the blocks inside may still be.
ghost use Rattle.std.specs.Prelude.{◌≡◌, Err, MatchResult};
ghost use Rattle.hir.specs.Decode.{block_of};
ghost use Rattle.format.specs.Parse.{block as block_parser, stmts_read, stmt_read, terminal_read, term_read, switch_read, cases_read, do_while_read, while_read, for_read, for_of_read, for_in_read, if_read, label_block_read, try_read, opt_block};
ghost use Rattle.load.specs.Blocks.{Room, ReadsBlock, StmtsIn, CasesIn, stmt_in, terminal_in, term_in, opt_block_in, case_read, case_in};
ghost use Rattle.load.specs.Reads.{cursor};

use crate::reader::Reader;
use format::fault::FileFault;
use hir::arena::Arena;
use hir::statement::{PrunedReactiveScopeBlock, ReactiveScopeBlock, ReactiveStatement};
use hir::terminal::{
    ReactiveBlock, ReactiveSwitchCase, ReactiveTerminal, ReactiveTerminalStatement,
};

impl Reader<'_> {
    // A block; `depth` counts it.
    #[cycle(read_blocks)]
    pub fn read_block(&mut self, arena: &mut Arena, depth: u32) -> Result<ReactiveBlock, FileFault>
        requires { Room arena.old self.old.used }
        ensures { ReadsBlock (block_parser depth) (block_of depth) arena.old arena.new self.old self.new result }
    {
        let depth = depth.checked_sub(1).ok_or(FileFault::Limit(self.at))?;
        let count = self.word()?;
        let base = arena.entries.waiting.vec.len();
        self.read_statements(arena, depth, count)?;
        Ok(arena.entries.settle(base))
    }

    // A block's statements; their slots are put aside.
    #[cycle(read_blocks)]
    fn read_statements(
        &mut self,
        arena: &mut Arena,
        depth: u32,
        count: u32,
    ) -> Result<(), FileFault>
        requires { Room arena.old self.old.used }
        ensures { MatchResult result (λ _. StmtsIn depth count arena.old arena.new (cursor self.old) (cursor self.new)) (λ e. stmts_read (block_parser depth) count (cursor self.old) ≡ Err e) }
    {
        // A loop for each kind of row: what is read is put elsewhere each time, and by calls that lead back here.
        for _ in 0..count {
            self.begin_statement()?;
            let statement = self.read_statement(arena, depth)?;
            let slot = arena.statements.add(statement);
            arena.entries.wait(slot);
        }
        Ok(())
    }

    #[cycle(read_blocks)]
    fn read_statement(
        &mut self,
        arena: &mut Arena,
        depth: u32,
    ) -> Result<ReactiveStatement, FileFault>
        requires { Room arena.old self.old.used }
        ensures { ReadsBlock (stmt_read (block_parser depth)) (stmt_in depth) arena.old arena.new self.old self.new result }
    {
        let at = self.at;
        let case = self.word()?;
        // A match of numbers: it is the format's table of cases.
        match case {
            0 => {
                let instruction = self.read_top_instruction(arena)?;
                Ok(ReactiveStatement::Instruction(instruction))
            }
            1 => {
                let terminal = self.read_terminal(arena, depth)?;
                Ok(ReactiveStatement::Terminal(terminal))
            }
            2 => {
                let scope = self.word()?;
                let instructions = self.read_block(arena, depth)?;
                Ok(ReactiveStatement::Scope(ReactiveScopeBlock {
                    scope,
                    instructions,
                }))
            }
            3 => {
                let scope = self.word()?;
                let instructions = self.read_block(arena, depth)?;
                Ok(ReactiveStatement::PrunedScope(PrunedReactiveScopeBlock {
                    scope,
                    instructions,
                }))
            }
            _ => Err(FileFault::Reading(at)),
        }
    }

    #[cycle(read_blocks)]
    fn read_terminal(
        &mut self,
        arena: &mut Arena,
        depth: u32,
    ) -> Result<ReactiveTerminalStatement, FileFault>
        requires { Room arena.old self.old.used }
        ensures { ReadsBlock (terminal_read (block_parser depth)) (terminal_in depth) arena.old arena.new self.old self.new result }
    {
        let terminal = self.read_term(arena, depth)?;
        let label = self.item()?;
        Ok(ReactiveTerminalStatement { terminal, label })
    }

    #[cycle(read_blocks)]
    fn read_term(&mut self, arena: &mut Arena, depth: u32) -> Result<ReactiveTerminal, FileFault>
        requires { Room arena.old self.old.used }
        ensures { ReadsBlock (term_read (block_parser depth)) (term_in depth) arena.old arena.new self.old self.new result }
    {
        let at = self.at;
        let case = self.word()?;
        // A match of numbers, as in `read_statement`.
        match case {
            0 => {
                let (target, id, target_kind) = self.jump()?;
                Ok(ReactiveTerminal::Break {
                    target,
                    id,
                    target_kind,
                })
            }
            1 => {
                let (target, id, target_kind) = self.jump()?;
                Ok(ReactiveTerminal::Continue {
                    target,
                    id,
                    target_kind,
                })
            }
            2 => {
                let (value, id) = self.leave()?;
                Ok(ReactiveTerminal::Return { value, id })
            }
            3 => {
                let (value, id) = self.leave()?;
                Ok(ReactiveTerminal::Throw { value, id })
            }
            4 => self.read_switch(arena, depth),
            5 => self.read_do_while(arena, depth),
            6 => self.read_while(arena, depth),
            7 => self.read_for(arena, depth),
            8 => self.read_for_of(arena, depth),
            9 => self.read_for_in(arena, depth),
            10 => self.read_if(arena, depth),
            11 => self.read_label(arena, depth),
            12 => self.read_try(arena, depth),
            _ => Err(FileFault::Reading(at)),
        }
    }

    #[cycle(read_blocks)]
    fn read_switch(&mut self, arena: &mut Arena, depth: u32) -> Result<ReactiveTerminal, FileFault>
        requires { Room arena.old self.old.used }
        ensures { ReadsBlock (switch_read (block_parser depth)) (term_in depth) arena.old arena.new self.old self.new result }
    {
        let test = self.item()?;
        let count = self.word()?;
        let base = arena.cases.waiting.vec.len();
        self.read_cases(arena, depth, count)?;
        let cases = arena.cases.settle(base);
        let id = self.order()?;
        Ok(ReactiveTerminal::Switch { test, cases, id })
    }

    // A switch's cases, put aside.
    #[cycle(read_blocks)]
    fn read_cases(&mut self, arena: &mut Arena, depth: u32, count: u32) -> Result<(), FileFault>
        requires { Room arena.old self.old.used }
        ensures { MatchResult result (λ _. CasesIn depth count arena.old arena.new (cursor self.old) (cursor self.new)) (λ e. cases_read (block_parser depth) count (cursor self.old) ≡ Err e) }
    {
        // A loop of its own, as in `read_statements`.
        for _ in 0..count {
            self.begin_case()?;
            let case = self.read_switch_case(arena, depth)?;
            arena.cases.wait(case);
        }
        Ok(())
    }

    #[cycle(read_blocks)]
    fn read_switch_case(
        &mut self,
        arena: &mut Arena,
        depth: u32,
    ) -> Result<ReactiveSwitchCase, FileFault>
        requires { Room arena.old self.old.used }
        ensures { ReadsBlock (case_read depth) (case_in depth) arena.old arena.new self.old self.new result }
    {
        let test = self.item()?;
        let block = self.read_optional_block(arena, depth)?;
        Ok(ReactiveSwitchCase { test, block })
    }

    // No `Item`: what is read goes into the arena.
    #[cycle(read_blocks)]
    fn read_optional_block(
        &mut self,
        arena: &mut Arena,
        depth: u32,
    ) -> Result<Option<ReactiveBlock>, FileFault>
        requires { Room arena.old self.old.used }
        ensures { ReadsBlock (opt_block (block_parser depth)) (opt_block_in depth) arena.old arena.new self.old self.new result }
    {
        if self.flag()? {
            Ok(Some(self.read_block(arena, depth)?))
        } else {
            Ok(None)
        }
    }

    #[cycle(read_blocks)]
    fn read_do_while(
        &mut self,
        arena: &mut Arena,
        depth: u32,
    ) -> Result<ReactiveTerminal, FileFault>
        requires { Room arena.old self.old.used }
        ensures { ReadsBlock (do_while_read (block_parser depth)) (term_in depth) arena.old arena.new self.old self.new result }
    {
        let loop_block = self.read_block(arena, depth)?;
        let test = self.read_top_value(arena)?;
        let id = self.order()?;
        Ok(ReactiveTerminal::DoWhile {
            loop_block,
            test,
            id,
        })
    }

    #[cycle(read_blocks)]
    fn read_while(&mut self, arena: &mut Arena, depth: u32) -> Result<ReactiveTerminal, FileFault>
        requires { Room arena.old self.old.used }
        ensures { ReadsBlock (while_read (block_parser depth)) (term_in depth) arena.old arena.new self.old self.new result }
    {
        let test = self.read_top_value(arena)?;
        let loop_block = self.read_block(arena, depth)?;
        let id = self.order()?;
        Ok(ReactiveTerminal::While {
            test,
            loop_block,
            id,
        })
    }

    #[cycle(read_blocks)]
    fn read_for(&mut self, arena: &mut Arena, depth: u32) -> Result<ReactiveTerminal, FileFault>
        requires { Room arena.old self.old.used }
        ensures { ReadsBlock (for_read (block_parser depth)) (term_in depth) arena.old arena.new self.old self.new result }
    {
        let init = self.read_top_value(arena)?;
        let test = self.read_top_value(arena)?;
        let update = self.read_optional_value(arena)?;
        let loop_block = self.read_block(arena, depth)?;
        let id = self.order()?;
        Ok(ReactiveTerminal::For {
            init,
            test,
            update,
            loop_block,
            id,
        })
    }

    #[cycle(read_blocks)]
    fn read_for_of(&mut self, arena: &mut Arena, depth: u32) -> Result<ReactiveTerminal, FileFault>
        requires { Room arena.old self.old.used }
        ensures { ReadsBlock (for_of_read (block_parser depth)) (term_in depth) arena.old arena.new self.old self.new result }
    {
        let init = self.read_top_value(arena)?;
        let test = self.read_top_value(arena)?;
        let loop_block = self.read_block(arena, depth)?;
        let id = self.order()?;
        let span = self.word()?;
        Ok(ReactiveTerminal::ForOf {
            init,
            test,
            loop_block,
            id,
            span,
        })
    }

    #[cycle(read_blocks)]
    fn read_for_in(&mut self, arena: &mut Arena, depth: u32) -> Result<ReactiveTerminal, FileFault>
        requires { Room arena.old self.old.used }
        ensures { ReadsBlock (for_in_read (block_parser depth)) (term_in depth) arena.old arena.new self.old self.new result }
    {
        let init = self.read_top_value(arena)?;
        let loop_block = self.read_block(arena, depth)?;
        let id = self.order()?;
        let span = self.word()?;
        Ok(ReactiveTerminal::ForIn {
            init,
            loop_block,
            id,
            span,
        })
    }

    #[cycle(read_blocks)]
    fn read_if(&mut self, arena: &mut Arena, depth: u32) -> Result<ReactiveTerminal, FileFault>
        requires { Room arena.old self.old.used }
        ensures { ReadsBlock (if_read (block_parser depth)) (term_in depth) arena.old arena.new self.old self.new result }
    {
        let test = self.item()?;
        let consequent = self.read_block(arena, depth)?;
        let alternate = self.read_optional_block(arena, depth)?;
        let id = self.order()?;
        Ok(ReactiveTerminal::If {
            test,
            consequent,
            alternate,
            id,
        })
    }

    #[cycle(read_blocks)]
    fn read_label(&mut self, arena: &mut Arena, depth: u32) -> Result<ReactiveTerminal, FileFault>
        requires { Room arena.old self.old.used }
        ensures { ReadsBlock (label_block_read (block_parser depth)) (term_in depth) arena.old arena.new self.old self.new result }
    {
        let block = self.read_block(arena, depth)?;
        let id = self.order()?;
        Ok(ReactiveTerminal::Label { block, id })
    }

    #[cycle(read_blocks)]
    fn read_try(&mut self, arena: &mut Arena, depth: u32) -> Result<ReactiveTerminal, FileFault>
        requires { Room arena.old self.old.used }
        ensures { ReadsBlock (try_read (block_parser depth)) (term_in depth) arena.old arena.new self.old self.new result }
    {
        let block = self.read_block(arena, depth)?;
        let handler_binding = self.item()?;
        let handler = self.read_block(arena, depth)?;
        let id = self.order()?;
        Ok(ReactiveTerminal::Try {
            block,
            handler_binding,
            handler,
            id,
        })
    }
}
