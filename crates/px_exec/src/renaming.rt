// The names that the entries of an executive are kept with.
ghost use Rattle.px_exec.specs.Opening.{IsUnposted, Renames};

use crate::exec::Exec;
use px_event::Names;
use px_ports::Disk;
use px_sem::Stepper;
use std::snapshot::Snapshot;

impl<S: Stepper, D: Disk> Exec<S, D> {
    /// Sets the names that accepted entries are kept with, where the journal is of the second version. It comes before
    /// the first post, and takes no memory.
    pub fn rename(&mut self, names: Names)
        requires { IsUnposted self.old }
        ensures { Renames D.Disk names self.old self.new }
    {
        self.journal.rename(names);
        self.opening.journal = Snapshot::of(&self.journal);
    }
}
