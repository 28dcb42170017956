// A host in memory, for tests: it tells all that it holds, and fails where it is asked to.
ghost use Rattle.std.specs.Prelude.{◌≡◌, Some, IfOk, find};
ghost use Rattle.std.specs.Option.{option_copied};
ghost use Rattle.px_ports.specs.Host.{file_at, Fetches, CountsReads, CountsWrites, CountsIdle};
ghost use Rattle.px_ports.specs.MemHost.{unused, FetchesNext, EmitsNext};
ghost use Rattle.px_ports.specs.FailedFetches.{failures_in};
ghost use Rattle.px_ports.specs.MemFile.{files_of, is_named};

use crate::calls::is_listed;
use crate::{FailedFetches, Fetched, Host, HostFault};
use px_value::NoMemory;
use std::alloc::Global;
use std::marker::Model;

/// A file of a `MemHost`.
#[derive(Drop)]
pub struct MemFile {
    /// The name that a fetch asks for.
    pub name: String,
    /// The content.
    pub bytes: Vec<u8>,
}

/// A host that holds its files and keeps the emitted text. Of files with one name the first counts.
#[derive(Drop)]
pub struct MemHost {
    files: Vec<MemFile>,
    failing_fetches: Vec<u32>,
    failing_emits: Vec<u32>,
    piece: usize,
    fetches: u64,
    emits: u64,
    failed: FailedFetches,
    text: Vec<u8>,
    write_faults: u64,
    idle: u64,
}

impl Model for MemHost {
    ghost use Rattle.px_ports.specs.MemHost.{MemHostState};

    ghost Value = { MemHostState };

    ghost use Rattle.px_ports.specs.MemHostView.{host_state};

    ghost view = { host_state };
}

impl MemHost {
    /// A host with these files, whose n-th fetch or emit, counted from 1, fails where n is listed.
    /// Another emit takes the lesser of `piece` and the length of what it is given, so `piece` 0 makes
    /// a sink that takes nothing. A refused growth of the text is a failed emit.
    pub fn new(
        alloc: Global,
        files: Vec<MemFile>,
        failing_fetches: Vec<u32>,
        failing_emits: Vec<u32>,
        piece: usize,
    ) -> Result<Self, NoMemory>
        ensures { IfOk result (λ host. host ≡
            unused (files_of files.items) failing_fetches.items failing_emits.items piece) }
    {
        Ok(MemHost {
            files,
            failing_fetches,
            failing_emits,
            piece,
            fetches: 0,
            emits: 0,
            failed: FailedFetches::new(alloc),
            text: Vec::new(alloc),
            write_faults: 0,
            idle: 0,
        })
    }

    /// What was emitted so far.
    pub fn emitted(&self) -> &[u8]
        ensures { result.now ≡ self.now.text }
    {
        &self.text
    }
}

fn first_of<'a>(files: &'a [MemFile], name: &str) -> Option<&'a MemFile>
    ensures { option_copied result ≡ find (is_named name.now) files.now }
{
    files.iter().find(|file| file.name.as_str() == name)
}

#[tactic(auto, using(crate::proofs::Files::file_at_files_of))]
fn content<'a>(files: &'a [MemFile], name: &str) -> Option<&'a [u8]>
    ensures { option_copied result ≡ file_at (files_of files.now) name.now }
{
    match first_of(files, name) {
        Some(file) => Some(&file.bytes),
        None => None,
    }
}

impl Host for MemHost {
    ghost files = { λ host. Some host.files };

    ghost emitted = { λ host. Some host.text };

    ghost read_faults = { λ host name. failures_in host.failed name };

    ghost write_faults = { λ host. host.write_faults };

    ghost idle = { λ host. host.idle };

    #[tactic(auto, using(crate::proofs::Failures::counts_failure))]
    fn fetch(&mut self, alloc: Global, name: &str, limit: usize) -> Result<Fetched, HostFault>
        ensures content { IfOk result (Fetches (Some self.old.files) name.now limit) }
        ensures cause { CountsReads name.now
            (failures_in self.old.failed) (failures_in self.new.failed) result }
        ensures next { FetchesNext self.old name.now result self.new }
    {
        self.fetches = self.fetches.saturating_add(1);
        let found = if is_listed(&self.failing_fetches, self.fetches) {
            None
        } else {
            content(&self.files, name)
        };
        match found {
            None => {
                self.failed.add(alloc, name)?;
                Err(HostFault::Failed)
            }
            Some(bytes) if bytes.len() > limit => Ok(Fetched::Longer),
            Some(bytes) => Ok(Fetched::Whole(bytes.to_vec(alloc)?)),
        }
    }

    fn emit(&mut self, bytes: &[u8]) -> Result<usize, HostFault>
        ensures cause { CountsWrites self.old.write_faults self.new.write_faults result }
        ensures idle { CountsIdle self.old.idle self.new.idle result }
        ensures next { EmitsNext self.old bytes.now result self.new }
    {
        self.emits = self.emits.saturating_add(1);
        let count = self.piece.min(bytes.len());
        let fails = is_listed(&self.failing_emits, self.emits);
        if fails || self.text.extend_from_slice(&bytes[..count]).is_err() {
            self.write_faults = self.write_faults.saturating_add(1);
            return Err(HostFault::Failed);
        }
        if count == 0 {
            self.idle = self.idle.saturating_add(1);
        }
        Ok(count)
    }
}
