//! Doubly linked lists by index: each cell of a table is in at most one list.
//!
//! `cell` has a cell's links and a list's ends, and how a cell is linked in and taken out; `links` is the table.
//! `specs/Links.antt` says what the lists are to contracts, sequences of cell numbers, and `specs/Keeping.antt` which
//! links stand for them.
#![tactic(auto)]

mod cell;
mod links;

pub use links::Links;
