// What a text is refused for.
ghost use Rattle.std.specs.Prelude.{◌≡◌};
ghost use Rattle.px_lex.specs.declared.fault.LexFault.TheVariants.{NoMemory as OutOfMemory};

use std::alloc::AllocError;
use thiserror::Error;

/// Why a text doesn't split into tokens. `at` is the byte at which the faulty piece begins.
#[derive(Debug, Drop, PartialEq, Eq, Error)]
pub enum LexFault {
    /// No token begins here, or one begins that isn't closed or isn't well formed.
    #[error("byte {at}")]
    Bad { at: usize },
    /// A real number or a type that the language leaves out stands here.
    #[error("real number at byte {at}")]
    Real { at: usize },
    /// An identifier of over 64 bytes, an integer of over 31 bits, or a string of over 1,024 bytes
    /// of content begins here.
    #[error("too long at byte {at}")]
    TooLong { at: usize },
    #[error("out of memory")]
    NoMemory,
}

impl From<AllocError> for LexFault {
    ghost from_gives = { λ _ fault. fault ≡ OutOfMemory };

    fn from(_: AllocError) -> Self {
        LexFault::NoMemory
    }
}
