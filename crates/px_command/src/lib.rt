//! What each node has under way, and what an event does to it and to the cells.
//!
//! `actions` keeps the acts and goes back to a mark. `taking` is the table of events: a handle, a returned value, an
//! abort that is done and an acknowledgement; `counting` says where each counts, and `kinds` which value a variable of
//! a type takes. `specs/Taking.antt` says what taking an event means: the parts stand for the world that the semantics
//! has after it.
#![tactic(auto)]

mod actions;
mod counting;
mod kinds;
mod taking;

pub use actions::Actions;
pub use kinds::as_kind;
