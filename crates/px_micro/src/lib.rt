//! One micro step over a list of candidate nodes: who goes, who loses, and what those that go do, all at once.
//!
//! The modules are in the order of the data. `records` is what the parts say of a command or an update.
//! `truths`, `asked` and `children` look in at a node's conditions, up at its ancestors and down at its children; `guarded`
//! has the guards from them, those alone that the rows of the node's state read, and `sight` where each candidate goes.
//! `wanting` drops the losers of conflicts. `effects` is what a move does, `starting` and `failing` say it by the body of a
//! node, and `doing` by the kind of the move too, which is from `kinds`. `turns` gathers what those that go do, in the world
//! before the step, and `moving` does it, which takes no memory. `step` is the list of these phases.
//!
//! A step has two halves: `going` says who goes, and `act` what all that go do, however they were found, and tells it where
//! somebody reads the moves. `micro` is both. Who takes many steps keeps the room of `Turns` from one to the next.
//! Who keeps what is asked of nodes, their truths and their parents' states finds their guards by `guards_by`.
//!
//! `specs/Candidates.antt` says which nodes a step has to be given, `specs/Going.antt` which of them go, and
//! `specs/Stepping.antt` what it leaves.
#![tactic(auto)]

mod asked;
mod children;
mod doing;
mod effects;
mod failing;
mod guarded;
mod kinds;
mod moving;
mod places;
mod records;
mod sight;
mod starting;
mod states;
mod step;
mod truths;
mod turns;
mod wanting;

pub use asked::asks_in;
pub use guarded::guards_by;
pub use sight::Going;
pub use states::{is_active, is_at_rest, is_executing, is_waiting};
pub use step::{act, micro};
pub use truths::Truths;
pub use turns::Turns;
pub use wanting::going;
