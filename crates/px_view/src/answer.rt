// What is answered: a text, where it goes, and the status.
use px_value::NoMemory;
use std::alloc::AllocFailed;

/// The status of a command that was carried out to its end, and found no fault.
pub const DONE: u8 = 0;
/// The words are no command.
pub const USAGE: u8 = 2;
/// The plan has faults.
pub const PLAN_REFUSED: u8 = 3;
/// The script has a fault.
pub const SCRIPT_REFUSED: u8 = 4;
/// The journal is damaged, or there is none.
pub const JOURNAL_REFUSED: u8 = 5;
/// The plan's start doesn't settle.
pub const RUNAWAY: u8 = 6;
/// A file could not be read.
pub const READ_FAULT: u8 = 7;
/// Memory has run out.
pub const WANT_OF_MEMORY: u8 = 10;

/// A text, and the status with which the program ends.
#[derive(Drop)]
pub struct Answer {
    pub status: u8,
    pub text: String,
    /// Where the text goes in place of standard output.
    pub file: Option<String>,
}

/// Why a command was not carried out to its end.
#[derive(Clone, Copy)]
pub enum Stop {
    /// It is refused with this status, and why is written.
    Refused(u8),
    /// Memory has run out.
    NoMemory,
}

impl From<NoMemory> for Stop {
    fn from(_: NoMemory) -> Self {
        Stop::NoMemory
    }
}

impl<T: Drop> From<AllocFailed<T>> for Stop {
    fn from(_: AllocFailed<T>) -> Self {
        Stop::NoMemory
    }
}
