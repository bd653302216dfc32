// The turns of terminals, once their step is paid.
ghost use Rattle.std.specs.Prelude.{◌≡◌, Some};
ghost use Rattle.hir.specs.Options.{nth};
ghost use Rattle.run.specs.Turn.{Due, Same, Turns};
ghost use Rattle.hir.specs.declared.statement.ReactiveStatement.TheVariants.{Terminal as TerminalStatement};
ghost use Rattle.run.specs.declared.frame.Frame.TheVariants.{Statement as StatementFrame};
ghost use Rattle.semantics.specs.Targets.{mark};

use crate::ask::ask_test;
use crate::frame::{Exit, Frame, Loop, Selection, Target};
use crate::jumps::label_of;
use crate::machine::Machine;
use hir::terminal::{ReactiveLabel, ReactiveTerminal, ReactiveTerminalStatement};
use host::Host;

// The number that a jump may name.
fn mark_of(label: Option<ReactiveLabel>) -> Option<u32>
    ensures { result ≡ mark label }
{
    label?.named()
}

impl<'a, H: Host> Machine<'a, H> {
    pub(crate) fn on_terminal(
        &mut self,
        slot: u32,
        depth: u32,
        statement: ReactiveTerminalStatement,
    )
        requires due { Due H.Host self.old (StatementFrame slot depth) }
        requires here { nth self.old.tables.now.arena.statements.vec.items slot ≡ Some (TerminalStatement statement) }
        ensures same { Same self.old self.new }
        ensures turns { Turns H.Host self.old (StatementFrame slot depth) self.new }
    {
        let label = mark_of(statement.label);
        match statement.terminal {
            ReactiveTerminal::Break {
                target,
                target_kind,
                ..
            } => {
                if let Some(label) = label_of(target, target_kind) {
                    self.memory.jump(Target::Break(label));
                }
            }
            ReactiveTerminal::Continue {
                target,
                target_kind,
                ..
            } => {
                if let Some(label) = label_of(target, target_kind) {
                    self.memory.jump(Target::Continue(label));
                }
            }
            ReactiveTerminal::Return { value, .. } => {
                self.memory.exit = Exit::Returned(self.look(value.identifier));
            }
            ReactiveTerminal::Throw { value, .. } => {
                self.memory.exit = Exit::Threw(self.look(value.identifier));
            }
            ReactiveTerminal::Switch { test, cases, .. } => {
                let selection = Selection {
                    value: self.look(test.identifier),
                    rest: cases,
                    next: 0,
                    default: None,
                    all: cases,
                };
                self.memory.push(Frame::EndsLabel { label });
                self.memory.push(Frame::Selects {
                    selection,
                    label,
                    depth,
                });
            }
            ReactiveTerminal::DoWhile {
                loop_block,
                test,
                ..
            } => {
                let repeated = Loop::BlockFirst {
                    block: loop_block,
                    test,
                };
                self.memory.push_loop(repeated, label, depth);
            }
            ReactiveTerminal::While {
                test,
                loop_block,
                ..
            } => {
                let repeated = Loop::TestFirst {
                    test,
                    block: loop_block,
                };
                self.memory.push_loop(repeated, label, depth);
            }
            ReactiveTerminal::For {
                init,
                test,
                update,
                loop_block,
                ..
            } => {
                let repeated = Loop::Updating {
                    test,
                    update,
                    block: loop_block,
                };
                self.memory.push_loop(repeated, label, depth);
                self.memory.push(Frame::Value {
                    slot: init,
                    depth: 64,
                });
            }
            ReactiveTerminal::ForOf {
                init,
                test,
                loop_block,
                ..
            } => {
                let repeated = Loop::TestFirst {
                    test,
                    block: loop_block,
                };
                self.memory.push_loop(repeated, label, depth);
                self.memory.push(Frame::Value {
                    slot: init,
                    depth: 64,
                });
            }
            ReactiveTerminal::ForIn {
                init,
                loop_block,
                ..
            } => {
                let repeated = Loop::TestFirst {
                    test: init,
                    block: loop_block,
                };
                self.memory.push_loop(repeated, label, depth);
            }
            ReactiveTerminal::If {
                test,
                consequent,
                alternate,
                ..
            } => {
                let given = self.look(test.identifier);
                self.memory.given = given;
                let reply = ask_test(self.host, 0, given);
                let Some(v) = self.memory.answered(reply) else {
                    return;
                };
                self.memory.given = v;
                self.memory.push(Frame::EndsLabel { label });
                if v != 0 {
                    self.memory.push(Frame::Block {
                        rest: consequent,
                        depth,
                    });
                } else if let Some(block) = alternate {
                    self.memory.push(Frame::Block { rest: block, depth });
                }
            }
            ReactiveTerminal::Label { block, .. } => {
                self.memory.push(Frame::EndsLabel { label });
                self.memory.push(Frame::Block { rest: block, depth });
            }
            ReactiveTerminal::Try {
                block,
                handler_binding,
                handler,
                ..
            } => {
                self.memory.push(Frame::EndsLabel { label });
                self.memory.push(Frame::Catches {
                    binding: handler_binding,
                    handler,
                    depth,
                });
                self.memory.push(Frame::Block { rest: block, depth });
            }
        }
    }
}
