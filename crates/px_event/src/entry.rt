// An event with the place in a script that it comes from.
ghost use Rattle.std.specs.Prelude.{◌≡◌, IfOk};

use crate::event::Event;
use px_value::NoMemory;
use std::alloc::Global;

/// The greatest number of a thread; the least is 1.
pub const THREAD_LIMIT: u8 = 8;

/// An event, the thread that posts it, and the line of the script that says so.
#[derive(Drop, PartialEq, Eq)]
pub struct Entry {
    /// From 1 to 8.
    pub thread: u8,
    /// Of the whole file, at least 1.
    pub line: u32,
    pub event: Event,
}

impl Entry {
    ghost use Rattle.px_event.specs.Fit.{is_fit_entry};

    /// Whether the thread is from 1 to 8, the line at least 1, and the event fit.
    pub fn is_fit(&self) -> bool
        ensures { result ≡ is_fit_entry self.now }
    {
        1 <= self.thread && self.thread <= THREAD_LIMIT && 1 <= self.line && self.event.is_fit()
    }

    /// An equal entry.
    pub fn copy(&self, alloc: Global) -> Result<Entry, NoMemory>
        ensures { IfOk result (λ entry. entry ≡ self.now) }
    {
        Ok(Entry {
            thread: self.thread,
            line: self.line,
            event: self.event.copy(alloc)?,
        })
    }
}
