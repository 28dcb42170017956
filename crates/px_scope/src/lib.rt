//! What names mean somewhere in a plan, and what is made of expressions, simple actions and items there: as the core plan
//! has them, with paths in place of names.
//!
//! `scope` has the nodes of the text round an expression, `words` the operators and functions, and `resolve` goes over
//! expressions; `simple` does so for assignments, commands and updates, and `items` for what a block declares.
#![tactic(auto)]

mod items;
mod resolve;
mod scope;
mod simple;
mod words;

pub use items::{given_for, priority_of, variables_of};
pub use resolve::resolved;
pub use scope::Scope;
pub use simple::{body_of, kind_of};
