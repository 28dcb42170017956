//! Sessions over a journal: what `run`, `resume` and `trace` do with the disk.
//!
//! `create` makes a journal and `reopen` takes one up, each on a disk that is bound to the journal's name; both give an
//! executive that has run the history. `read_journal` reads one and runs nothing. `post_rest` lets the threads of a script post what they have left, and hands the
//! disk back. No host is asked here, and nothing printed. `specs/Session.antt` says what a session leaves of the disk at
//! every moment, `specs/Creating.antt` and `specs/Reopening.antt` what opens one, and `specs/Posting.antt` what its posts come
//! to.
#![tactic(auto)]

mod attaching;
mod creating;
mod fault;
mod posting;
mod reading;
mod reopening;

pub use creating::create;
pub use fault::{ReopenFault, ReopenWhy};
pub use posting::{Posted, post_rest};
pub use reading::read_journal;
pub use reopening::{Reopened, reopen};
