//! The executive: a plan that runs, and a journal that has each event before it is acknowledged.
//!
//! `Exec::open` runs a journal's history, and `post` takes one event more: it advances the stepper, appends the entry
//! to the journal, and settles. So after a crash at any moment the history that is recovered has each acknowledged
//! event. `rename` sets the names that further entries are kept with, before the first post. `specs/Executive.antt` says
//! what the type keeps from its opening on, and `specs/Answers.antt` what a post answers.
#![tactic(auto)]

mod answering;
mod asking;
mod closing;
mod copies;
mod exec;
mod fault;
mod opening;
mod parts;
mod posting;
mod receipt;
mod renaming;
mod room;

pub use exec::Exec;
pub use fault::{OpenFault, OpenWhy, PostFault};
pub use parts::Parts;
pub use receipt::Receipt;
