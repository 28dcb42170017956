//! Whether a plan's tree has faults, which is the first, and which the next behind one.
//!
//! `whole` has `check` and `first_behind`, which notes the faults of a tree in one walk: `found` keeps the first of those
//! that are noted, of those behind a floor where there is one.
//! `declarations` looks at what stands before the root, and `globals` keeps it. `block` walks blocks with what stands in
//! them (`heads`, `items`, `actions`, `branches`, `calls`); `scope` keeps what is visible there, variables in `scoped`
//! and nodes in `nodes`, and `entering` goes into a block and back; `room` appends where there is room. `expression`
//! judges expressions by the tables of `types`, and `token` has their first tokens. `once` and `repeats` find what is
//! said twice, `cells` counts declared cells, and `tolerances` distinct tolerances.
#![tactic(auto)]

mod actions;
mod block;
mod branches;
mod calls;
mod cells;
mod declarations;
mod entering;
mod expression;
mod found;
mod globals;
mod heads;
mod items;
mod nodes;
mod once;
mod repeats;
mod room;
mod scope;
mod scoped;
mod token;
mod tolerances;
mod types;
mod whole;

pub use found::{Misfit, Spot};
pub use types::Allowed;
pub use whole::{check, first_behind};
