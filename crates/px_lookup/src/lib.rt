//! Reports: what the outside reported of each state, with an undo log.
//!
//! `look_state` is what is reported of, and `report` what was reported of one: the last value, and the one that each
//! tolerance has latched. `reports` keeps them all and goes back to a mark. `specs/Reports.antt` says what reports are to
//! contracts and what an event does to them, and `specs/Undoing.antt` how they keep the mark.
#![tactic(auto)]

mod look_state;
mod report;
mod reports;

pub use look_state::LookState;
pub use reports::Reports;
