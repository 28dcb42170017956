//! The lines that are printed of a run: its trace, the replies to what was posted, how the plan stands, and the waits at
//! which a script stalls.
//!
//! The text of each is a definition of px_sem (`Text`), but for the lines of the names of a journal's interfaces, which
//! `specs/Names.antt` has. Each call appends whole lines; where memory runs out, it leaves the text as it was.
#![tactic(auto)]

mod append;
mod effects;
mod events;
mod headings;
mod names;
mod replies;
mod stalls;
mod standings;
mod steps;
mod values;

pub use headings::{push_heading, push_start};
pub use names::push_name;
pub use replies::{LoggedLine, push_reply};
pub use stalls::push_stall;
pub use standings::push_standing;
pub use steps::{push_quiet, push_step};
