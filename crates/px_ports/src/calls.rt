// Which calls of a disk in memory fail, and how many did.
ghost use Rattle.std.specs.Prelude.{◌≡◌, ◌≤◌, ◌==◌, ◌↔◌, IsErr, IsTrue};
ghost use Rattle.std.specs.List.{list_any};
ghost use Rattle.px_ports.specs.Host.{Rose};
ghost use Rattle.px_ports.specs.Disk.{CountsFaults};
ghost use Rattle.px_ports.specs.Calls.{call_fails, faulted, after_call};

use crate::disk::DiskFault;
use std::marker::Model;

/// The calls of a disk in memory: those that were made, and those that fail.
#[derive(Drop)]
pub struct Calls {
    failing: Vec<u32>,
    stop_after: Option<u32>,
    made: u64,
    faults: u64,
}

impl Model for Calls {
    ghost use Rattle.px_ports.specs.Calls.{CallsState};

    ghost Value = { CallsState };

    ghost view = { λ c. record {
      failing = c.failing.items;
      stop_after = c.stop_after;
      made = c.made;
      faults = c.faults;
    } };
}

impl Calls {
    /// No call so far. The listed ones fail, counted from 1, and after `stop_after` calls each does.
    pub fn new(failing: Vec<u32>, stop_after: Option<u32>) -> Self
        ensures { result ≡ record {
          failing = failing.items;
          stop_after = stop_after;
          made = 0;
          faults = 0;
        } }
    {
        Calls {
            failing,
            stop_after,
            made: 0,
            faults: 0,
        }
    }

    /// Counts one more call, and fails it if it is to fail.
    pub fn next(&mut self) -> Result<(), DiskFault>
        ensures fails { IsErr result ↔ IsTrue (call_fails self.old) }
        ensures after { self.new ≡ after_call self.old result }
        ensures cause { CountsFaults self.old.faults self.new.faults result }
    {
        self.made = self.made.saturating_add(1);
        let number = self.made;
        let is_after_last = self
            .stop_after
            .map_or(false, |last| number > u64::from(last));
        if is_listed(&self.failing, number) || is_after_last {
            self.faults = self.faults.saturating_add(1);
            Err(DiskFault)
        } else {
            Ok(())
        }
    }

    /// Counts a fault of a call that has begun.
    pub fn fault(&mut self) -> DiskFault
        ensures after { self.new ≡ faulted self.old }
        ensures later { self.old.faults ≤ self.new.faults }
        ensures rose { Rose self.old.faults self.new.faults }
    {
        self.faults = self.faults.saturating_add(1);
        DiskFault
    }

    /// How many calls have failed.
    pub fn faults(&self) -> u64
        ensures { result ≡ self.now.faults }
    {
        self.faults
    }
}

/// Whether the number is one of these.
pub fn is_listed(failing: &[u32], number: u64) -> bool
    ensures { result ≡ list_any (λ listed. listed == number) failing.now }
{
    failing.iter().any(|listed| u64::from(*listed) == number)
}
