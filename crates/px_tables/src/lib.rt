//! The transition table: where a node goes, by its kind, its state and the guards of its rows.
//!
//! `rows` has the rows, state by state, and `arrivals` where they lead. px_sem's `specs/Table.antt` has the same rows as a
//! definition. `specs/Reading.antt` says which guards the rows of a state read. `laws` says what a first row is, and that
//! no other guard counts.
#![tactic(auto)]

mod arrivals;
pub mod laws;
mod rows;

pub use rows::dest;
