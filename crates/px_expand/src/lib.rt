//! Expands the tree of a plan into its core plan.
//!
//! `count` and `reach` find out whether the core plan would be too large. Then it is made: px_scope gives nodes and variables
//! their paths, and px_forms has the table of derived forms. `given`, `form`, `shape` and `shaped` make the node of a block;
//! `names`, `children`, `entering` and `branches` go into a node of the text, `opened` and `closing` into and out of a chain of
//! `if`s, and `block` puts them all together. `specs/Core.antt` says what the core plan is.
#![tactic(auto)]

mod block;
mod branches;
mod children;
mod closing;
mod count;
mod entering;
mod form;
mod given;
mod names;
mod opened;
mod plan;
mod reach;
mod shape;
mod shaped;

pub use plan::{NODE_LIMIT, check_size, expand};
