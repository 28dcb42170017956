//! The outside as the program sees it: a host with files to read and a text to write, and a disk.
#![tactic(auto)]

mod calls;
mod contents;
mod disk;
mod failed_fetches;
mod host;
mod mem_disk;
mod mem_host;
mod moment;
mod pick;

pub use disk::{Disk, DiskFault};
pub use failed_fetches::FailedFetches;
pub use host::{Fetched, Host, HostFault};
pub use mem_disk::MemDisk;
pub use mem_host::{MemFile, MemHost};
pub use moment::{Bytes, Moment};
pub use pick::Pick;
