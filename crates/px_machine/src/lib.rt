//! The queued machine: a stepper whose steps cost what has changed.
//!
//! `kept` is what it keeps of a world as it was last seen: the truths of conditions, states, what nodes are told, who is
//! busy, who wants a variable, and the queue (`queue`) of nodes that are to be caught up or looked at. `tree` has where each
//! node stands. A step is a list of phases (`stepping`): `noticing` takes the news, `catching_up` brings what is kept of a
//! node up to it and wakes those that read it, `looking` judges those that were woken, and `contest` says which writers go.
//! `machine` is the stepper over these, and `begun` what is begun in it.
//!
//! `specs/Seen.antt`, `specs/Told.antt` and `specs/Still.antt` say what is kept, each one idea; `specs/Right.antt` has them
//! together, over what was last seen and never over the present. `specs/Contest.antt` says what a look finds.
#![tactic(auto)]

mod begun;
mod catching_up;
mod contest;
mod kept;
mod looking;
mod machine;
mod noticing;
mod queue;
mod stepping;
mod tree;

pub use machine::Machine;
