// The executive, and what it keeps of its opening.
use crate::closing::Failed;
use px_event::Entry;
use px_journal::Journal;
use px_ports::Disk;
use px_sem::{LogEntry, Stepper};
use std::marker::Model;
use std::snapshot::Snapshot;

/// What an opening was handed, with the names that its journal was given before the first post. The snapshots have no
/// bytes: contracts alone see them.
#[derive(Drop)]
pub(crate) struct Opening<S, D: Disk> {
    pub(crate) stepper: Snapshot<S>,
    pub(crate) journal: Snapshot<Journal<D>>,
    pub(crate) history: Snapshot<Vec<Entry>>,
    /// The most events that the history may have, from 1 to 100,000.
    pub(crate) limit: u32,
}

/// A plan that runs over a journal. Its type keeps `Keeps` of `specs/Executive.antt`, of which `keeps` tells.
#[derive(Drop)]
pub struct Exec<S: Stepper, D: Disk> {
    pub(crate) stepper: S,
    pub(crate) journal: Journal<D>,
    /// The accepted entries, with those that the journal had at the opening in front.
    pub(crate) history: Vec<Entry>,
    /// The posts since the opening that were answered over the history, with their replies.
    pub(crate) log: Vec<LogEntry>,
    /// The append that failed, after which the executive is closed.
    pub(crate) failed: Option<Failed>,
    pub(crate) opening: Opening<S, D>,
}

impl<S: Stepper, D: Disk> Model for Exec<S, D> {
    ghost use Rattle.px_exec.specs.Executive.{Executive, Keeps};

    ghost Value = { Executive S D };

    ghost view = { λ e. record {
      stepper = e.stepper;
      journal = e.journal;
      history = e.history.items;
      log = e.log.items;
      failed = e.failed;
      opening = record {
        stepper = e.opening.stepper.value;
        journal = e.opening.journal.value;
        history = e.opening.history.value.items;
        limit = e.opening.limit;
      };
    } };

    ghost invariant = { λ e. Keeps S.Stepper D.Disk (record {
      stepper = e.stepper;
      journal = e.journal;
      history = e.history.items;
      log = e.log.items;
      failed = e.failed;
      opening = record {
        stepper = e.opening.stepper.value;
        journal = e.opening.journal.value;
        history = e.opening.history.value.items;
        limit = e.opening.limit;
      };
    }) };
}
