//! A journal: a plan's text and a history of entries on a disk, each entry whole or not there at all.
//!
//! It has one of two layouts: `create` makes a journal whose records are entries, `create_named` one that keeps the name
//! of each entry's interface too. `append` writes a record, `recover` reads what a crash has left, and `laws` says that
//! bytes stand for at most one text and history. `docs/FORMATS.md` has the layouts byte by byte, and why a torn write
//! can't be taken for an entry.
#![tactic(auto)]

mod append;
mod create;
mod fault;
mod heading;
mod history;
mod journal;
pub mod laws;
mod layout;
mod put;
mod record;
mod recover;
mod version;
mod window;

pub use fault::{CreateFault, CreateWhy, RecoverFault, RecoverWhy};
pub use journal::{Journal, Recovered};
pub use layout::{RECORD_LIMIT, TEXT_LIMIT};
pub use version::Version;
