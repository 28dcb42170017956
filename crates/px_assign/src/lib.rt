//! Conflicts of writers: which of the nodes that want to start must stay, and the table that keeps it.
//!
//! `conflicts` has `losers`, for lists of nodes. `writing` asks the plan which variable a node writes and which of two
//! writers goes first, and `contenders` finds who holds a variable and who of those that want it goes first.
//! `specs/Conflicts.antt` says what a loser is.
//!
//! `claims` is the table: of each node whether it would start and whether it is at work. `order` has the writers of all
//! variables, in the order in which they go; `firsts` keeps of each variable the first that would start, and `contest` the
//! variables that are wanted and not held. `specs/Claims.antt` says what the table is to contracts, `specs/Ordering.antt` in
//! which order writers go, and `specs/Keeping.antt` what every table keeps.
#![tactic(auto)]

mod claims;
mod conflicts;
mod contenders;
mod contest;
mod firsts;
mod order;
mod writing;

pub use claims::Claims;
pub use conflicts::losers;
pub use writing::variable_of;
