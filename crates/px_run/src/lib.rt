//! The program: what each command does, and how it ends.
//!
//! `top` is the one entry, and each command has a module: `check`, `format`, `trace_start` and `dry_run` touch no disk;
//! `run`, `soak`, `resume`, `trace` and `names` have a journal, and `finishing` is the end that the first three share. `reading`
//! reads the files, and `stop` has what stops a command. The statuses and the texts of refusals are those of px_ending.
//! `specs/Headline.antt` says what a call emits, which status it answers and what it leaves of the disk, `specs/Journaled.antt`
//! what the commands with a journal call for, and `specs/Causes.antt` what each status tells. `laws` has what the headline
//! means over stops.
#![tactic(auto)]

mod check;
mod dry_run;
mod finishing;
mod format;
pub mod laws;
mod names;
mod naming;
mod reading;
mod resume;
mod run;
mod soak;
mod stop;
mod top;
mod trace;
mod trace_start;

pub use top::{Done, plexil_over};
