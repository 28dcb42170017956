//! The semantics of plans: the world that a plan runs in, its steps, what events do to it, and the text of a run.
//!
//! `specs/` has the definitions: `World` and `Expressions`, the value of an expression; `Guards` and `Table`, where a
//! node goes; `Conflicts` and `Effects`, which nodes go and what they do; `Step`, the micro step; `Events`, `Run` and
//! `Log`; and `Text`. `laws` has what some of them mean. A `Stepper` is what runs a plan by them, and `start` brings one
//! up; an event is offered to it (`offer`), and what the offer comes to is settled or given up; `post` and `post_each` post
//! events to it so.
#![tactic(auto)]

mod guards;
pub mod laws;
mod log;
mod moves;
mod offering;
mod posting;
mod settling;
mod standing;
mod stepper;

pub use guards::{Arrival, Guards};
pub use log::LogEntry;
pub use moves::{Effect, Move};
pub use offering::{Offered, offer};
pub use posting::{Posted, post, post_each};
pub use settling::{STEP_LIMIT, StepFault, start};
pub use standing::Standing;
pub use stepper::Stepper;
