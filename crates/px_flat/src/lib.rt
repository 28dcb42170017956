//! Flat tables of a plan: its nodes by number in preorder, and the layout of the cells of what runs it.
//!
//! `laying` lays the nodes out row by row (`row`), `ends` finds where the descendants of each end, `extents` which cells
//! are whose, `slots` where each variable stands, `lookups` which names are looked up, and `tolerances` with which
//! tolerances. `names` keeps all this and says
//! what each name stands for; `numbering` puts numbers in the place of names (`numbered`); both read the conditions and
//! bodies of the plan's own nodes, which `nodes` lists. `flat` is what callers see, and `making` has `flatten`. `act` is
//! what a node has under way.
//!
//! `specs/Row.antt`, `specs/Extents.antt`, `specs/Lookups.antt` and `specs/Layout.antt` say which numbers and places these
//! are, `specs/Numbered.antt` what a numbered expression is and its value, `specs/Within.antt` that its numbers lie within
//! the tables, and `specs/Parts.antt` which world cells, reports and acts stand for. `laws` has what these mean together.
#![tactic(auto)]

mod act;
mod ends;
mod extents;
mod flat;
pub mod laws;
mod laying;
mod lookups;
mod making;
mod names;
mod nodes;
mod numbered;
mod numbering;
mod row;
mod slots;
mod tolerances;

pub use act::{Abort, Act};
pub use flat::Flat;
pub use making::flatten;
pub use numbered::{NumberedBody, NumberedConditions, NumberedExpr, NumberedNode, NumberedTarget};
pub use row::{Extent, Row};
