//! Reads the plan that tokens spell.
//!
//! `depth` finds the first token that is too deep, before any tree is made. Then the plan is read in the order of its
//! grammar: `plan` the whole, `global` the declarations, `block`, `item` with `variable`, `literal` and `number`,
//! `action`, `body` with `named`, and `branch`. `start` says what begins with a token, and `build` makes trees of trees.
//! `specs/Verdict.antt` says what `parse` promises, and `specs/Part.antt` what the readers of parts do.
#![tactic(auto)]

mod action;
mod block;
mod body;
mod branch;
mod build;
mod depth;
mod global;
mod item;
mod literal;
mod named;
mod number;
mod plan;
mod start;
mod variable;

pub use depth::first_too_deep;
pub use plan::parse;
