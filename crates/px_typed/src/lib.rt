//! Cells keep their number and their types: a variable has the cells that it declares, and what they hold is of its type or
//! UNKNOWN, in each world that a run reaches.
//!
//! `typing` says so of the micro step, of events and of runs of any plan whose initial values suit, over the definitions of
//! px_sem; `specs/Typing.antt` has what is said. `laws` says it of every plan that bytes spell, with what `typing` asks of a
//! plan shown of each plan that compiles.
#![tactic(auto)]

pub mod laws;
pub mod typing;
