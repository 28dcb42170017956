// A host: files to read, and a sink for what is printed.
ghost use Rattle.std.specs.Prelude.{◌≡◌, ◌<◌, ℕ, List, Option, length, IfOk};
ghost use Rattle.px_ports.specs.declared.host.HostFault.TheVariants.{NoMemory as WantOfMemory};
ghost use Rattle.px_ports.specs.Host.{Files, Fetches, CountsReads, EmitsFront, CountsWrites, CountsIdle};

use std::alloc::{AllocError, AllocFailed, Global};

/// What a fetch found.
#[derive(Drop)]
pub enum Fetched {
    /// The file, whole.
    Whole(Vec<u8>),
    /// The file has more bytes than the limit.
    Longer,
}

/// Why a call of a host has no answer.
#[derive(Clone, Copy, Debug, PartialEq, Eq)]
pub enum HostFault {
    /// The outside failed: the file can't be read, or the sink took nothing because of a fault.
    Failed,
    /// Memory has run out.
    NoMemory,
}

impl From<AllocError> for HostFault {
    ghost from_gives = { λ _ fault. fault ≡ WantOfMemory };

    fn from(_: AllocError) -> Self {
        HostFault::NoMemory
    }
}

impl<T: Drop> From<AllocFailed<T>> for HostFault {
    ghost from_gives = { λ _ fault. fault ≡ WantOfMemory };

    fn from(_: AllocFailed<T>) -> Self {
        HostFault::NoMemory
    }
}

/// Files that are read whole, and one sink for text. A count of faults never falls, and a fault is
/// answered only where its count rose, or for an emit stands at its last value, so that no code above can make
/// one up.
pub trait Host {
    /// The files, each with its name and content; none where the host doesn't tell.
    ghost files: { Self → Option Files };

    /// The bytes that were emitted so far; none where the host doesn't tell.
    ghost emitted: { Self → Option (List ℕ) };

    /// How many fetches of each name have failed.
    ghost read_faults: { Self → List ℕ → ℕ };

    /// How many emits have failed, up to 2^64 - 1.
    ghost write_faults: { Self → ℕ };

    /// How many emits took no byte and didn't fail, up to 2^64 - 1.
    ghost idle: { Self → ℕ };

    /// The file of this name, if it has at most `limit` bytes. `Failed`: it can't be read, or nothing has the name.
    /// `NoMemory`: memory ran out.
    fn fetch(&mut self, alloc: Global, name: &str, limit: usize) -> Result<Fetched, HostFault>
        ensures content { IfOk result (Fetches (files self.old) name.now limit) }
        ensures cause { CountsReads name.now (read_faults self.old) (read_faults self.new) result }

        // It touches no file, and nothing of the sink.
        ensures files { files self.new ≡ files self.old }
        ensures emitted { emitted self.new ≡ emitted self.old }
        ensures write_faults { write_faults self.new ≡ write_faults self.old }
        ensures idle { idle self.new ≡ idle self.old };

    /// Appends bytes from the front to what was emitted, and answers how many. An answer of 0 is a
    /// fault of the sink, at which the caller has to end. `Failed`: nothing was appended. `NoMemory` never comes.
    fn emit(&mut self, bytes: &[u8]) -> Result<usize, HostFault>
        requires { 0 < length bytes.now }

        ensures emitted { EmitsFront bytes.now (emitted self.old) (emitted self.new) result }
        ensures cause { CountsWrites (write_faults self.old) (write_faults self.new) result }
        ensures idle { CountsIdle (idle self.old) (idle self.new) result }

        ensures files { files self.new ≡ files self.old }
        ensures read_faults { read_faults self.new ≡ read_faults self.old };
}
