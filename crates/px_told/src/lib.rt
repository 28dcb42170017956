//! What each node of a tree asks of those below it, and what it is told: what the nodes above it ask.
//!
//! `asks` has what can be asked, `place` where a node stands in the tree, and `told` the table; `walk` hands a change on to
//! those below. `specs/Told.antt` says what the table is to contracts, `specs/Preorder.antt` which places are those of a
//! tree, and `specs/Hearing.antt` who hears of a change.
#![tactic(auto)]

mod asks;
mod place;
mod told;
mod walk;

pub use asks::Asks;
pub use place::Place;
pub use told::Told;
