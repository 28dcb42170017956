//! What the program emits: texts in large pieces through a buffer, and the text of a log.
//!
//! A `Printer` gathers lines and emits them to a host's sink; `print_log` steps the history of a log once more and prints its
//! trace, the replies, and how the plan stands, so that no trace is kept. Where nothing may be printed before it is known what
//! settles, a `Draft` keeps the trace while it is short: `start_drafted` and `post_each_drafted` gather it, and
//! `print_drafted` prints the log by it. `print_stalled` adds the waits at which threads
//! stand, `print_summary` prints the summary of a soak in place of a log's text, and `print_names` the names of a journal's
//! interfaces. `specs/View.antt` says what a host shows of itself at a moment, `specs/Printing.antt` what a text is on its
//! way to the sink, `specs/Drafts.antt` what a draft has of it, `specs/Stalls.antt` which lines tell of the waits, and
//! `specs/Summary.antt` what the summary is.
#![tactic(auto)]

mod draft;
mod drafting;
mod log;
mod names;
mod printer;
mod summary;

pub use draft::Draft;
pub use drafting::{post_each_drafted, start_drafted};
pub use log::{print_drafted, print_log, print_stalled};
pub use names::print_names;
pub use printer::{PrintFault, emit_all};
pub use summary::print_summary;
