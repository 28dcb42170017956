//! What runs a plan is made of: its tables, its cells, what was reported, what nodes have under way, and the last moves.
//!
//! `parts` is all of it, `fresh` makes it for a plan that has not begun, and `rewinding` goes back to that. `taking` takes
//! an event, `marks` marks a world and goes back to it, `readings` answers what is asked of the world, and `seeing` takes
//! the news since it was last seen. `specs/Parts.antt` says which world parts stand for, `specs/Marks.antt` to which they go
//! back, and `specs/Seen.antt` what was seen.
#![tactic(auto)]

mod fresh;
mod marks;
mod parts;
mod readings;
mod rewinding;
mod seeing;
mod taking;

pub use parts::Parts;
pub use readings::{failure_of, outcome_of, state_of};
