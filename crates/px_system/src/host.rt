// The real host: the files of the system, and standard output. It tells nothing of what they hold.
ghost use Rattle.std.specs.Prelude.{None, ◌≡◌, ◌≤◌, ℕ, List, IfOk, length};
ghost use Rattle.px_ports.specs.Host.{Fetches};
ghost use Rattle.px_ports.specs.FailedFetches.{failures_in};

use px_ports::{FailedFetches, Fetched, Host, HostFault};
use std::alloc::Global;
use std::fs::File;
use std::io;
use std::io::{ErrorKind, Read, Write};
use std::rt::Files;

/// A host over what the runtime reaches, with its counts of faults.
#[derive(Drop)]
pub struct StdHost<R: Files + Print> {
    rt: R,
    failed: FailedFetches,
    write_faults: u64,
    idle: u64,
}

impl<R: Files + Print> StdHost<R> {
    /// A host with no call yet.
    pub fn new(alloc: Global, rt: R) -> Self
        ensures reads { (name : List ℕ) → ⟦<StdHost<R> as Host>⟧.read_faults result name ≡ 0 }
        ensures writes { ⟦<StdHost<R> as Host>⟧.write_faults result ≡ 0 }
        ensures idle { ⟦<StdHost<R> as Host>⟧.idle result ≡ 0 }
    {
        StdHost {
            rt,
            failed: FailedFetches::new(alloc),
            write_faults: 0,
            idle: 0,
        }
    }
}

// Reads a file, and no more of it than shows that it is longer.
fn read_up_to<R: Files>(rt: &R, alloc: Global, name: &str, limit: usize) -> io::Result<Fetched>
    ensures { IfOk result (Fetches None name.now limit) }
{
    let mut bytes = Vec::new(alloc);
    let most = (limit as u64).saturating_add(1);
    File::open(rt, name)?.take(most).read_to_end(&mut bytes)?;
    if bytes.len() > limit {
        return Ok(Fetched::Longer);
    }
    Ok(Fetched::Whole(bytes))
}

// Writes some bytes of the front, and flushes.
fn write_some(rt: &impl Print, bytes: &[u8]) -> io::Result<usize>
    ensures { IfOk result (λ count. count ≤ length bytes.now) }
{
    let mut output = io::writer(rt);
    let count = output.write(bytes)?;
    output.flush()?;
    Ok(count)
}

impl<R: Files + Print> Host for StdHost<R> {
    ghost files = { λ _. None };

    ghost emitted = { λ _. None };

    ghost read_faults = { λ host. failures_in host.failed };

    ghost write_faults = { λ host. host.write_faults };

    ghost idle = { λ host. host.idle };

    #[tactic(auto, using(px_ports::proofs::Failures::counts_failure))]
    fn fetch(&mut self, alloc: Global, name: &str, limit: usize) -> Result<Fetched, HostFault> {
        match read_up_to(&self.rt, alloc, name, limit) {
            Ok(fetched) => Ok(fetched),
            Err(fault) if fault.kind() == ErrorKind::OutOfMemory => Err(HostFault::NoMemory),
            Err(_) => {
                self.failed.add(alloc, name)?;
                Err(HostFault::Failed)
            }
        }
    }

    fn emit(&mut self, bytes: &[u8]) -> Result<usize, HostFault> {
        let Ok(count) = write_some(&self.rt, bytes) else {
            self.write_faults = self.write_faults.saturating_add(1);
            return Err(HostFault::Failed);
        };
        if count == 0 {
            self.idle = self.idle.saturating_add(1);
        }
        Ok(count)
    }
}
