// Why bytes were not read as an entry.
ghost use Rattle.std.specs.Prelude.{◌≡◌};
ghost use Rattle.px_event.specs.declared.fault.DecodeFault.TheVariants.{NoMemory as OutOfMemory};

use std::alloc::{AllocError, AllocFailed};
use thiserror::Error;

/// Why bytes were not read as an entry.
#[derive(Debug, Drop, Error)]
pub enum DecodeFault {
    /// The bytes are those of no entry.
    #[error("not the bytes of an entry")]
    Bad,
    #[error("out of memory")]
    NoMemory,
}

impl From<AllocError> for DecodeFault {
    ghost from_gives = { λ _ fault. fault ≡ OutOfMemory };

    fn from(_: AllocError) -> Self {
        DecodeFault::NoMemory
    }
}

impl<T: Drop> From<AllocFailed<T>> for DecodeFault {
    ghost from_gives = { λ _ fault. fault ≡ OutOfMemory };

    fn from(_: AllocFailed<T>) -> Self {
        DecodeFault::NoMemory
    }
}
