//! The system as the program's outside: its files and standard output as a host, and one of its files as a disk.
#![tactic(auto)]

mod disk;
mod host;
mod tail;

pub use disk::{Access, StdDisk};
pub use host::StdHost;
