//! The tree that a plan's text stands for, as it is written, and which tokens spell which tree.
//!
//! `word` has the words of the grammar and `operator` the table of operators; `expr` is the expressions, `block` the
//! blocks with their items and actions, and `plan` the whole; `fault` is what the text of a plan can be refused for.
//! In `specs/`, `Expr`, `Block` and `Plan` show each tree with lists in place of
//! vectors, `ExprGrammar`, `BlockGrammar` and `PlanGrammar` say what is spelled, and `Depth` which tokens are too deep.
//! `ValueType` has the types of expressions, `Scope` what names mean, and `ExprFaults`, `BlockFaults` and `PlanFaults` say
//! which faults a tree has.
#![tactic(auto)]

mod block;
mod expr;
mod fault;
pub mod laws;
mod operator;
mod plan;
mod value_type;
mod word;

pub use block::{
    Action, Block, Body, Branch, Call, Guarded, Initial, Item, ListedLiteral, Pair, Target,
    Variable,
};
pub use expr::{Attribute, Enumerated, Identifier, Literal, NodeReference, SurfaceExpr, Tolerance};
pub use fault::{CheckFault, ExpandFault, FaultKind, ParseFault, PlanFault};
pub use operator::{BinaryOperator, OPERATORS, Operator, PRIMARY_LEVEL, Spelling, UnaryOperator};
pub use plan::{Declaration, Parameter, Surface};
pub use value_type::ValueType;
pub use word::{BinaryFunction, BlockForm, Condition, LookWord, TypeName, UnaryFunction};
