// Expressions and bodies whose variables, nodes and lookup names are numbers.
use px_core::{BinaryOp, UnaryOp, VarKind};
use px_value::Value;

/// An expression, with what it names as numbers.
#[derive(Drop)]
pub enum NumberedExpr {
    Literal(Value),
    /// The cell of a scalar.
    Variable(u32),
    /// An element of the array that has so many cells from the first on.
    Element {
        first: u32,
        size: u32,
        index: Box<NumberedExpr>,
    },
    StateOf(u32),
    OutcomeOf(u32),
    FailureOf(u32),
    HandleOf(u32),
    Acknowledged(u32),
    /// What is reported of the state that the name of this number and the arguments' values make.
    Look {
        lookup: u32,
        args: Vec<NumberedExpr>,
        /// The tolerance whose latched value it reads; None where it reads the value last reported.
        tolerance: Option<u32>,
    },
    Unary {
        op: UnaryOp,
        arg: Box<NumberedExpr>,
    },
    Binary {
        op: BinaryOp,
        left: Box<NumberedExpr>,
        right: Box<NumberedExpr>,
    },
}

/// A scalar, or an element of an array, that is written.
#[derive(Drop)]
pub struct NumberedTarget {
    /// The first cell of the variable.
    pub first: u32,
    /// How many cells the variable has.
    pub size: u32,
    pub kind: VarKind,
    /// Which element of an array, counted from 0; None for a scalar.
    pub index: Option<NumberedExpr>,
}

/// What a node does.
#[derive(Drop)]
pub enum NumberedBody {
    Nothing,
    Assign {
        target: NumberedTarget,
        value: NumberedExpr,
    },
    Command {
        args: Vec<NumberedExpr>,
        result: Option<NumberedTarget>,
    },
    Update {
        values: Vec<NumberedExpr>,
    },
}

/// The eight conditions of a node.
#[derive(Drop)]
pub struct NumberedConditions {
    pub start: NumberedExpr,
    pub end: NumberedExpr,
    pub exit: NumberedExpr,
    pub skip: NumberedExpr,
    pub repeat: NumberedExpr,
    pub pre: NumberedExpr,
    pub post: NumberedExpr,
    pub invariant: NumberedExpr,
}

/// What a node computes.
#[derive(Drop)]
pub struct NumberedNode {
    pub conditions: NumberedConditions,
    pub body: NumberedBody,
}
