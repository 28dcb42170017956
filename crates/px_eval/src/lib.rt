//! The value of an expression in present cells and reports.
//!
//! `operators` has the operations, `arrays` an element of an array, `lookups` what was reported of a state of the
//! outside, and `values` puts them together. A value that a cell, a report or the expression itself holds is lent and
//! not copied (`lent`), so a comparison of texts copies none.
//!
//! `specs/Meaning.antt` says what the value is to the plan's own expressions.
#![tactic(auto)]

mod arrays;
mod lent;
mod lookups;
mod operators;
mod values;

pub use arrays::place_in;
pub use values::{value_of, values_of};
