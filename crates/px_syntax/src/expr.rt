// Expressions as they are written.
use crate::operator::{BinaryOperator, UnaryOperator};
use crate::word::{BinaryFunction, LookWord, UnaryFunction};
use px_value::{Failure, Handle, Name, NodeState, Outcome, Text};

/// A name, and the number of its token.
#[derive(Drop)]
pub struct Identifier {
    pub name: Name,
    pub token: usize,
}

/// A value that is written as itself.
#[derive(Drop)]
pub enum Literal {
    Integer(i32),
    Boolean(bool),
    Text(Text),
}

/// The name of a state, an outcome, a failure or a handle.
#[derive(Clone, Copy, PartialEq, Eq)]
pub enum Enumerated {
    State(NodeState),
    Outcome(Outcome),
    Failure(Failure),
    Handle(Handle),
}

/// Which node's attribute is read.
#[derive(Drop)]
pub enum NodeReference {
    Named(Identifier),
    /// `Self`, by the number of its token.
    SelfNode(usize),
    /// `Parent`, by the number of its token.
    Parent(usize),
    /// `Sibling`, by the number of its token, of this name.
    Sibling(usize, Identifier),
    /// `Child`, by the number of its token, of this name.
    Child(usize, Identifier),
}

/// What can be read of a node (PLEXIL reference manual, "Node State").
#[derive(Clone, Copy, PartialEq, Eq)]
pub enum Attribute {
    State,
    Outcome,
    Failure,
    CommandHandle,
}

/// How far a reported Integer must lie from the one that is kept to take its place, and the number of its token.
#[derive(Clone, Copy, PartialEq, Eq)]
pub struct Tolerance {
    pub distance: u32,
    pub token: usize,
}

/// An expression (PLEXIL reference manual, "Expressions"). Parentheses round it are not kept.
#[derive(Drop)]
pub enum SurfaceExpr {
    Literal {
        value: Literal,
        token: usize,
    },
    Enumerated {
        value: Enumerated,
        token: usize,
    },
    Variable(Identifier),
    Element {
        array: Identifier,
        index: Box<SurfaceExpr>,
    },
    Attribute {
        node: NodeReference,
        attribute: Attribute,
    },
    Look {
        word: LookWord,
        token: usize,
        name: Identifier,
        args: Vec<SurfaceExpr>,
        tolerance: Option<Tolerance>,
    },
    UnaryCall {
        function: UnaryFunction,
        token: usize,
        argument: Box<SurfaceExpr>,
    },
    BinaryCall {
        function: BinaryFunction,
        token: usize,
        first: Box<SurfaceExpr>,
        second: Box<SurfaceExpr>,
    },
    Unary {
        operator: UnaryOperator,
        token: usize,
        operand: Box<SurfaceExpr>,
    },
    Binary {
        operator: BinaryOperator,
        left: Box<SurfaceExpr>,
        right: Box<SurfaceExpr>,
    },
}
