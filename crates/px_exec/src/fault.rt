// Why an executive was not opened, and why a post was not accepted.
ghost use Rattle.std.specs.Prelude.{◌≡◌};
ghost use Rattle.px_exec.specs.declared.fault.PostFault.TheVariants.{NoMemory as PostOutOfMemory};

use px_journal::Journal;
use px_ports::Disk;
use std::alloc::AllocError;
use thiserror::Error;

/// Why an executive was not opened.
#[derive(Clone, Copy, Debug, Drop, Error, PartialEq, Eq)]
pub enum OpenWhy {
    /// The event at this place of the history, from 1, is the first that doesn't settle.
    #[error("event {at} does not settle")]
    Runaway { at: u32 },
    /// Memory ran out.
    #[error("out of memory")]
    NoMemory,
}

/// An executive was not opened.
#[derive(Drop)]
pub struct OpenFault<D: Disk> {
    /// The journal, handed back as it was.
    pub journal: Journal<D>,
    /// The reason.
    pub why: OpenWhy,
}

/// Why a post was not accepted. World and history are as before, and the disk too, but for `DiskFault`.
#[derive(Clone, Copy, Debug, Drop, Error, PartialEq, Eq)]
pub enum PostFault {
    /// An earlier post was answered `DiskFault`. The disk had counted so many faults then.
    #[error("closed after {faults} faults of the disk")]
    Closed { faults: u64 },
    /// The plan's root had finished.
    #[error("the plan has finished")]
    PlanFinished,
    /// The history had at least as many events as it may have.
    #[error("the history may have {limit} events")]
    Full { limit: u32 },
    /// The plan would not have settled after the event.
    #[error("the plan would run away")]
    Runaway,
    /// A call of the disk failed. A crash leaves the history with the event or without it, and the executive is closed.
    #[error("the disk failed")]
    DiskFault,
    /// Memory ran out, before any call of the disk.
    #[error("out of memory")]
    NoMemory,
}

impl From<AllocError> for PostFault {
    ghost from_gives = { λ _ fault. fault ≡ PostOutOfMemory };

    fn from(_: AllocError) -> Self {
        PostFault::NoMemory
    }
}
