//! The threads of a script at work: each passes its lines in order, posting events and looking at conditions.
//!
//! `seat` is what a line asks of a desk, and `walking` goes through the lines of one thread as far as they go. `rounds` lets a
//! worker go on for each thread of a script, each on a thread of its own, until none goes further, and `standstill` says
//! where they stand then. `together` is the whole work over an executive: a desk is opened over it, with workers that
//! `engaging` engages, and closed again, until a stall holds behind the history of all.
//!
//! `specs/Board.antt` says what is shown to a thread and what becomes of it, `specs/Seat.antt` what a seat of a desk shows so,
//! `specs/Walk.antt` how far a walk goes, `specs/Work.antt` what the work of all threads over a desk comes to, and
//! `specs/Crew.antt` what it comes to over an executive.
#![tactic(auto)]

mod engaging;
mod rounds;
mod seat;
mod standstill;
mod together;
mod walking;

pub use rounds::work;
pub use together::{Worked, work_together};
