//! Who depends on what: for each source its watchers, each once, in the order in which they were added.
//!
//! `listeners` is the table, and `dependents` goes over the watchers of a source. `specs/Listening.antt` says what they
//! are to contracts, and `specs/Keeping.antt` which linked cells stand for them.
#![tactic(auto)]

mod dependents;
mod listeners;

pub use dependents::Dependents;
pub use listeners::Listeners;
