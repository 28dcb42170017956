// What can be asked of an executive. None of it takes memory.
ghost use Rattle.std.specs.Prelude.{◌≡◌, IsTrue, IsFalse, Some, None};
ghost use Rattle.std.specs.Option.{option_map};
ghost use Rattle.px_sem.specs.World.{standing_of, integer_at};
ghost use Rattle.px_sem.specs.Asking.{Holds};
ghost use Rattle.px_exec.specs.Executive.{Keeps, plan_of, world_of};

use crate::exec::Exec;
use px_event::{Cond, Entry};
use px_ports::Disk;
use px_sem::{LogEntry, Standing, Stepper};
use px_value::{Name, Path};

impl<S: Stepper, D: Disk> Exec<S, D> {
    /// What its type keeps, told to contracts.
    pub fn keeps(&self)
        ensures { Keeps S.Stepper D.Disk self.now }
    {
        let _ = &self.stepper;
    }

    /// Whether a condition holds now: the node is in the state, or the history has at least so many events.
    pub fn holds(&self, cond: &Cond) -> bool
        ensures held { IsTrue result → Holds self.now.history (world_of S.Stepper self.now) cond.now }
        ensures missed { IsFalse result → Holds self.now.history (world_of S.Stepper self.now) cond.now → ⊥ }
    {
        match cond {
            Cond::State { node, state } => self.stepper.state_of(node) == Some(*state),
            Cond::Events { least } => *least as usize <= self.history.len(),
        }
    }

    /// The entry whose append failed; None exactly where no post was answered `DiskFault`.
    pub fn failed(&self) -> Option<&Entry>
        ensures { option_map (λ entry. entry.now) result ≡ option_map (λ failed. failed.entry) self.now.failed }
    {
        match &self.failed {
            Some(failed) => Some(&failed.entry),
            None => None,
        }
    }

    /// The posts since the opening that were answered over the history, with their replies.
    pub fn log(&self) -> &[LogEntry]
        ensures { result.now ≡ self.now.log }
    {
        &self.log
    }

    /// The accepted entries, those from before the opening in front.
    pub fn history(&self) -> &[Entry]
        ensures { result.now ≡ self.now.history }
    {
        &self.history
    }

    /// Whether the plan has finished.
    pub fn standing(&self) -> Standing
        ensures { result ≡ standing_of (plan_of S.Stepper self.now) (world_of S.Stepper self.now) }
    {
        self.stepper.standing()
    }

    /// The Integer that a scalar variable holds; None exactly where no such scalar holds one.
    pub fn integer(&self, owner: &Path, name: &Name) -> Option<i32>
        ensures { result ≡ integer_at (plan_of S.Stepper self.now) (world_of S.Stepper self.now) owner.now name.now }
    {
        self.stepper.integer(owner, name)
    }
}
