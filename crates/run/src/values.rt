// The turns of values: their parts take their place on the stack.
ghost use Rattle.std.specs.Prelude.{◌≡◌, ◌+◌, Some};
ghost use Rattle.run.specs.declared.frame.Frame.TheVariants.{Value as ValueFrame};
ghost use Rattle.run.specs.Turn.{Due, Same, Turns};
ghost use Rattle.hir.specs.Options.{nth};
ghost use Rattle.hir.specs.declared.value.InstructionValue.{InstructionValue};
ghost use Rattle.hir.specs.declared.value.ReactiveValue.TheVariants.{Instruction as InstructionCase};
ghost use Rattle.semantics.specs.Exec.{operator_number};

use crate::frame::{Exit, Frame};
use crate::machine::Machine;
use crate::operations::operate;
use hir::value::{InstructionValue, LogicalOperator, ReactiveValue};
use host::{Host, Thrown};

// The payload of the question about a logical value's left.
fn payload_of(operator: LogicalOperator) -> u32
    ensures { result ≡ operator_number operator + 1 }
{
    operator as u32 + 1
}

impl<'a, H: Host> Machine<'a, H> {
    // An instruction's own value is done in one turn.
    fn on_operation(&mut self, slot: u32, depth: u32, operation: InstructionValue)
        requires due { Due H.Host self.old (ValueFrame slot depth) }
        requires here { nth self.old.tables.now.arena.inner.values.vec.items slot ≡ Some (InstructionCase operation) }
        ensures same { Same self.old self.new }
        ensures turns { Turns H.Host self.old (ValueFrame slot depth) self.new }
    {
        let places = &self.tables.arena.inner.places;
        let memory = &mut *self.memory;
        let mut given = memory.given;
        let done = operate(
            self.host,
            self.store,
            operation,
            places.row(operation.operands),
            places.row(operation.written),
            &mut memory.values,
            &mut given,
        );
        memory.given = given;
        if let Err(Thrown(v)) = done {
            memory.exit = Exit::Threw(v);
        }
    }

    pub(crate) fn on_value(&mut self, slot: u32, depth: u32)
        requires { Due H.Host self.old (ValueFrame slot depth) }
        ensures same { Same self.old self.new }
        ensures turns { Turns H.Host self.old (ValueFrame slot depth) self.new }
    {
        match self.tables.arena.inner.values.at(slot) {
            ReactiveValue::Instruction(operation) => self.on_operation(slot, depth, operation),
            ReactiveValue::LogicalExpression {
                operator,
                left,
                right,
            } => {
                let depth = depth - 1;
                self.memory.push(Frame::AfterLeft {
                    payload: payload_of(operator),
                    right,
                    depth,
                });
                self.memory.push(Frame::Value { slot: left, depth });
            }
            ReactiveValue::ConditionalExpression {
                test,
                consequent,
                alternate,
            } => {
                let depth = depth - 1;
                self.memory.push(Frame::AfterTest {
                    consequent,
                    alternate,
                    depth,
                });
                self.memory.push(Frame::Value { slot: test, depth });
            }
            ReactiveValue::SequenceExpression {
                instructions,
                value,
                ..
            } => {
                let depth = depth - 1;
                self.memory.push(Frame::Value { slot: value, depth });
                self.memory.push(Frame::Instructions {
                    rest: instructions,
                    depth,
                });
            }
            ReactiveValue::OptionalExpression { value, .. } => {
                self.memory.push(Frame::Value {
                    slot: value,
                    depth: depth - 1,
                });
            }
        }
    }
}
