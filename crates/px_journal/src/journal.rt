// An open journal over a disk.
ghost use Rattle.std.specs.Prelude.{◌≡◌, ℕ, List};
ghost use Rattle.px_event.specs.declared.entry.Entry.{Entry as AnyEntry};
ghost use Rattle.px_event.specs.declared.named.NamedEntry.{NamedEntry as AnyNamed};
ghost use Rattle.px_journal.specs.Journal.{IsReady, IsReadyAs};

use crate::version::Version;
use px_event::{Entry, NAMED_LIMIT, Names};
use px_ports::Disk;
use px_value::Name;

/// The bytes behind the gate of the longest record: its length, its body, and the next gate.
pub(crate) const BUFFER_ROOM: usize = 2 + NAMED_LIMIT + 1;

/// The journal of a disk, at the end of which the next record goes.
#[derive(Drop)]
pub struct Journal<D: Disk> {
    pub(crate) disk: D,
    pub(crate) version: Version,
    /// The names that the next entries are kept with, in the second version.
    pub(crate) names: Names,
    /// The place of the closed gate behind the last record.
    pub(crate) gate: u64,
    /// The number of records.
    pub(crate) count: u32,
    /// Room for the longest record and the gate behind it.
    pub(crate) buffer: Vec<u8>,
}

/// A journal that was read, and what it stands for.
#[derive(Drop)]
pub struct Recovered<D: Disk> {
    /// The journal, ready for the next entry.
    pub journal: Journal<D>,
    /// The plan's text.
    pub plan: Vec<u8>,
    /// The entries, in their order.
    pub history: Vec<Entry>,
    /// The name of each entry's interface, where it has one.
    pub names: Vec<Option<Name>>,
}

impl<D: Disk> Journal<D> {
    /// The layout that it has.
    pub fn version(&self) -> Version
        ensures { result ≡ self.now.version }
    {
        self.version
    }

    /// The count of calls of the disk that have failed.
    pub fn faults(&self) -> u64
        ensures { result ≡ D.faults self.now.disk }
    {
        self.disk.faults()
    }

    /// Sets the names that entries are kept with from now on. It takes no memory. In the first version, which keeps no
    /// names, it has no effect.
    pub fn rename(&mut self, names: Names)
        ensures kept { (text : List ℕ) (history : List AnyEntry) → IsReady D.Disk self.old text history
            → IsReady D.Disk self.new text history }
        ensures kept_names { (text : List ℕ) (named : List AnyNamed) → IsReadyAs D.Disk self.old text named
            → IsReadyAs D.Disk self.new text named }
        ensures disk { self.new.disk ≡ self.old.disk }
        ensures version { self.new.version ≡ self.old.version }
        ensures gate { self.new.gate ≡ self.old.gate }
        ensures count { self.new.count ≡ self.old.count }
        ensures named { self.old.version ≡ Version.Two → self.new.names ≡ names }
        ensures unnamed { self.old.version ≡ Version.One → self.new.names ≡ self.old.names }
    {
        match self.version {
            Version::One => {}
            Version::Two => self.names = names,
        }
    }

    /// The disk.
    pub fn into_disk(self) -> D
        ensures { result ≡ self.disk }
    {
        self.disk
    }
}
