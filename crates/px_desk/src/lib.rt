//! A desk: threads post events to one executive, each through a seat of its own, and there is one legal history of all.
//!
//! `desk` is what a thread asks of a desk, and `event_desk` the desk over an executive, which lies in a turn of px_turn.
//! `kept` is that executive as a list of posts, whose entries `listing` names.
//!
//! `specs/Listing.antt` says which lists are legal and what a post answers, and `specs/Seating.antt` what a seat knows and
//! what calls tell it.
#![tactic(auto)]

mod desk;
mod event_desk;
mod kept;
mod listing;
mod seats;

pub use desk::Desk;
pub use event_desk::{EventDesk, OpenRefused, Seat};
pub use kept::Kept;
pub use listing::Listing;
