//! Lays a plan's tree out as text.
//!
//! `plan` has `print`, and goes through the tree in the order of its grammar: `block` the blocks with their lines, `item`
//! their items, `action` the simple actions, `expression` and `leaf` the expressions, `word` what is spelled by a word or
//! a sign, and `append` appends. `specs/Layout.antt` is the layout.
//!
//! Each `push_` function appends to one buffer. Want of memory leaves there what it may, since `print` drops it.
#![tactic(auto)]

mod action;
mod append;
mod block;
mod expression;
mod item;
pub mod laws;
mod leaf;
mod plan;
mod word;

pub use plan::print;
