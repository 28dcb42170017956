//! Values by number, with an undo log that keeps at most one old value of each; cells are such values.
//!
//! `marked` has the values, the mark and what goes back to it, whatever the values are, and tells which of them have news
//! since they were last seen; `news` notes their numbers; `cells` has the cells of what runs a plan. `specs/Marked.antt`
//! says what they are to contracts, and `specs/Keeping.antt` how they keep it.
#![tactic(auto)]

mod cells;
mod marked;
mod news;

pub use cells::Cells;
pub use marked::Marked;
