// What is left of an executive.
ghost use Rattle.std.specs.Prelude.{◌≡◌};

use crate::exec::Exec;
use px_event::Entry;
use px_journal::Journal;
use px_ports::Disk;
use px_sem::{LogEntry, Stepper};

/// The parts of an executive that outlive it.
#[derive(Drop)]
pub struct Parts<S: Stepper, D: Disk> {
    /// The stepper, which has run the history.
    pub stepper: S,
    /// The journal, which stands for the history, or where an append failed perhaps for one event more.
    pub journal: Journal<D>,
    /// The accepted entries, those of the opening in front.
    pub history: Vec<Entry>,
    /// The posts since the opening that were answered over the history, with their replies.
    pub log: Vec<LogEntry>,
}

impl<S: Stepper, D: Disk> Exec<S, D> {
    /// The stepper, the journal, the history and the log.
    pub fn into_parts(self) -> Parts<S, D>
        ensures stepper { result.stepper ≡ self.stepper }
        ensures journal { result.journal ≡ self.journal }
        ensures history { result.history.items ≡ self.history }
        ensures log { result.log.items ≡ self.log }
    {
        let Exec {
            stepper,
            journal,
            history,
            log,
            failed: _,
            opening: _,
        } = self;
        Parts {
            stepper,
            journal,
            history,
            log,
        }
    }
}
