//! The forms of the core plan: what an `if`, a loop and a block's form word stand for, as nodes and their conditions.
//!
//! `names` has the names that the text doesn't have; `join` and `conditions` make the conditions of a node; `place` makes a
//! node of its parts; `forms` is the table of derived forms, which `specs/Forms.antt` says.
#![tactic(auto)]

mod conditions;
mod forms;
mod join;
mod names;
mod place;

pub use conditions::{Added, Given};
pub use forms::{
    Turn, after, conditional, counted, repeated, sequence, tries, where_found, where_not_found,
};
pub use names::Generated;
pub use place::{Own, Place, both, only, push};
