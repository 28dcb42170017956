// Why a journal was not made, or not read.
ghost use Rattle.std.specs.Prelude.{◌≡◌};
ghost use Rattle.px_journal.specs.declared.fault.CreateWhy.TheVariants.{DiskFault as CreateFaulted, NoMemory as CreateOutOfMemory};
ghost use Rattle.px_journal.specs.declared.fault.RecoverWhy.TheVariants.{DiskFault as RecoverFaulted, NoMemory as RecoverOutOfMemory};

use px_ports::DiskFault;
use std::alloc::{AllocError, AllocFailed};
use thiserror::Error;

/// Why a journal was not made.
#[derive(Clone, Copy, Debug, Drop, Error, PartialEq, Eq)]
pub enum CreateWhy {
    /// The file has at least 13 bytes, and its master gate is open. Nothing was written.
    #[error("the file exists")]
    Exists,
    /// A call of the disk failed. A crash leaves the file as it was, nothing, or the new journal.
    #[error("the disk failed")]
    DiskFault,
    /// Memory ran out. Nothing was written.
    #[error("out of memory")]
    NoMemory,
}

impl From<DiskFault> for CreateWhy {
    ghost from_gives = { λ _ why. why ≡ CreateFaulted };

    fn from(_: DiskFault) -> Self {
        CreateWhy::DiskFault
    }
}

impl From<AllocError> for CreateWhy {
    ghost from_gives = { λ _ why. why ≡ CreateOutOfMemory };

    fn from(_: AllocError) -> Self {
        CreateWhy::NoMemory
    }
}

/// A journal was not made.
#[derive(Drop)]
pub struct CreateFault<D> {
    /// The disk, handed back.
    pub disk: D,
    /// The reason.
    pub why: CreateWhy,
}

/// Why a journal was not read.
#[derive(Clone, Copy, Debug, Drop, Error, PartialEq, Eq)]
pub enum RecoverWhy {
    /// The file has fewer than 13 bytes, or its first byte is 0.
    #[error("no journal")]
    NoJournal,
    /// The layout is broken first at this place, counted in bytes from 0.
    #[error("damaged at byte {at}")]
    Damaged { at: u64 },
    /// A call of the disk failed.
    #[error("the disk failed")]
    DiskFault,
    /// Memory ran out.
    #[error("out of memory")]
    NoMemory,
}

impl From<DiskFault> for RecoverWhy {
    ghost from_gives = { λ _ why. why ≡ RecoverFaulted };

    fn from(_: DiskFault) -> Self {
        RecoverWhy::DiskFault
    }
}

impl From<AllocError> for RecoverWhy {
    ghost from_gives = { λ _ why. why ≡ RecoverOutOfMemory };

    fn from(_: AllocError) -> Self {
        RecoverWhy::NoMemory
    }
}

impl<T: Drop> From<AllocFailed<T>> for RecoverWhy {
    ghost from_gives = { λ _ why. why ≡ RecoverOutOfMemory };

    fn from(_: AllocFailed<T>) -> Self {
        RecoverWhy::NoMemory
    }
}

/// A journal was not read.
#[derive(Drop)]
pub struct RecoverFault<D> {
    /// The disk, handed back. Nothing was written to it; but for `DiskFault` a crash leaves just what a read gives.
    pub disk: D,
    /// The reason.
    pub why: RecoverWhy,
}
