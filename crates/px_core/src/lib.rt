//! Plans as data: the tree of nodes that a plan's text stands for, with its conditions, variables and bodies.
//!
//! `expr` is what conditions and bodies compute; `conditions`, `defaults`, `variable` and `body` are what a node has beside its
//! children; `node` and `plan` put them together. `specs/Plan.antt` shows each with lists in place of vectors, and
//! `specs/Fit.antt` says which plans are fit to run.
#![tactic(auto)]

mod body;
mod conditions;
mod defaults;
mod expr;
pub mod laws;
mod node;
mod plan;
mod variable;

pub use body::{Body, Pair, Target};
pub use conditions::{ConditionKind, Conditions};
pub use defaults::DEFAULT_PRIORITY;
pub use expr::{BinaryOp, Expr, LookWord, UnaryOp};
pub use node::{CoreNode, Kind};
pub use plan::Plan;
pub use variable::{VarKind, Variable};
