//! A ticket lock with seats: who has the turn has the value, and every caller sees a front of one history.
//!
//! `listed` says of which values there is a history, `view` what a seat knows, `rule` and `steps` what holds between
//! any two steps and what each step tells, and `turn` is the lock. `specs/Rule.antt` has the rule of seats.
#![tactic(auto)]

pub mod laws;
mod listed;
mod rule;
mod steps;
mod turn;
mod view;

pub use listed::Listed;
pub use turn::{Refused, Seat, Turn};
pub use view::{Record, Stamped, View};
