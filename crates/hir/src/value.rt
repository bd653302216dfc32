// Values: instructions, and the expressions that hold other values. A value inside another is named by its slot.
use crate::place::Place;
use crate::range::Range;

#[derive(Clone, Copy)]
pub enum LogicalOperator {
    Or = 0,
    And = 1,
    Coalesce = 2,
}

// Its kind is the number of the case among the 42 of the compiler, its payload the caller's code for the case's other fields.
// The kind stays a number: nine cases are looked at, and a host is asked by number for all the others.
#[derive(Clone, Copy)]
pub struct InstructionValue {
    pub kind: u32,
    pub payload: u32,
    pub written: Range,
    pub operands: Range,
    pub span: u32,
}

#[derive(Clone, Copy)]
pub enum ReactiveValue {
    Instruction(InstructionValue),
    LogicalExpression {
        operator: LogicalOperator,
        left: u32,
        right: u32,
    },
    ConditionalExpression {
        test: u32,
        consequent: u32,
        alternate: u32,
    },
    SequenceExpression {
        instructions: Range,
        id: u32,
        value: u32,
    },
    OptionalExpression {
        value: u32,
        optional: bool,
    },
}

#[derive(Clone, Copy)]
pub struct ReactiveInstruction {
    pub id: u32,
    pub lvalue: Option<Place>,
    pub value: u32,
    pub span: u32,
}
