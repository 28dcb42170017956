//! Tallies: how many members of each group count now.
//!
//! `tally` is the one type, a mark for each member and a total for each group. `specs/Tally.antt` says what it is to
//! contracts, and `specs/Keeping.antt` how the totals are kept.
#![tactic(auto)]

mod tally;

pub use tally::Tally;
