// Why bytes were not read as a script.
ghost use Rattle.std.specs.Prelude.{◌≡◌};
ghost use Rattle.px_script.specs.declared.fault.ScriptFault.TheVariants.{NoMemory as OutOfMemory};

use px_value::NoMemory;
use std::alloc::AllocFailed;
use thiserror::Error;

/// What is wrong with a line. Each kind has the number that is told of it.
#[derive(Clone, Copy)]
pub(crate) enum FaultKind {
    /// It has none of the shapes of a line.
    BadLine = 1,
    /// The plan has no such node, or one of another kind.
    BadNode = 2,
    /// A VALUE spells none.
    BadValue = 3,
    /// It names a thread that there isn't.
    BadThread = 4,
    /// It comes after as many lines of its thread as there may be.
    TooManyLines = 5,
    /// It names a thread otherwise than an earlier line did.
    OtherName = 6,
}

impl FaultKind {
    ghost use Rattle.px_script.specs.Fault.{number_of};
    ghost use Rattle.px_script.specs.declared.fault.ScriptFault.TheVariants.{Fault};

    /// The fault of a line, counted from 1.
    pub(crate) fn at(self, line: u32) -> ScriptFault
        ensures { result ≡ Fault line (number_of self) }
    {
        ScriptFault::Fault {
            line,
            kind: self as u8,
        }
    }
}

/// Why bytes were not read as a script.
#[derive(Debug, Drop, PartialEq, Eq, Error)]
pub enum ScriptFault {
    /// The first faulty line, counted from 1, and what is wrong with it: 1, it has none of the shapes of a line; 2, the
    /// plan has no such node, or one of another kind; 3, a VALUE spells none; 4, it names a thread by a number that isn't
    /// from 1 to 8; 5, it is the 100,001st line of its thread that posts or waits; 6, it names a thread otherwise than an
    /// earlier line did.
    #[error("line {line}: fault of kind {kind}")]
    Fault { line: u32, kind: u8 },
    #[error("out of memory")]
    NoMemory,
}

impl From<NoMemory> for ScriptFault {
    ghost from_gives = { λ _ fault. fault ≡ OutOfMemory };

    fn from(_: NoMemory) -> Self {
        ScriptFault::NoMemory
    }
}

impl<T: Drop> From<AllocFailed<T>> for ScriptFault {
    ghost from_gives = { λ _ fault. fault ≡ OutOfMemory };

    fn from(_: AllocFailed<T>) -> Self {
        ScriptFault::NoMemory
    }
}
