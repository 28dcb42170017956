// A disk in memory, for tests: it tells its bytes, fails where it is asked to, and gives the images of a crash.
ghost use Rattle.std.specs.Prelude.{◌≡◌, ◌≤◌, ◌+◌, Some, length, slice_range, IfOk, OnOk};
ghost use Rattle.px_ports.specs.Disk.{CountsFaults, Writes, Syncs};
ghost use Rattle.px_ports.specs.MemDisk.{IsNew, AttachesNext, ReadsNext, WritesNext, SyncsNext};
ghost use Rattle.px_ports.specs.Replay.{read_of, images_of, picked, writes_in};
ghost use Rattle.px_ports.specs.ReplayLaws.{reads_are_left, none_is_longer};

use crate::calls::Calls;
use crate::contents::Contents;
use crate::{Disk, DiskFault, Pick};
use px_value::NoMemory;
use std::alloc::Global;
use std::marker::Model;

/// A disk that holds its bytes in memory and keeps the record of their moments.
#[derive(Drop)]
pub struct MemDisk {
    alloc: Global,
    name: Option<String>,
    attached: bool,
    calls: Calls,
    contents: Contents,
}

impl Model for MemDisk {
    ghost use Rattle.std.specs.Option.{option_map};
    ghost use Rattle.std.specs.String.{string_bytes};
    ghost use Rattle.px_ports.specs.Disk.{CountsFaults, Writes, Syncs};
    ghost use Rattle.px_ports.specs.MemDisk.{MemDiskState};

    ghost Value = { MemDiskState };

    ghost view = { λ d. record {
      bound = option_map string_bytes d.name;
      attached = d.attached;
      calls = d.calls;
      contents = d.contents;
    } };
}

impl MemDisk {
    /// A disk with these bytes, all of them synced, that is bound to no name. Its device calls are numbered from 1: the
    /// listed ones fail, and after `stop_after` of them each does.
    pub fn new(
        alloc: Global,
        bytes: Vec<u8>,
        failing: Vec<u32>,
        stop_after: Option<u32>,
    ) -> Result<Self, NoMemory>
        ensures { IfOk result (IsNew bytes.items failing.items stop_after) }
    {
        Ok(MemDisk {
            alloc,
            name: None,
            attached: false,
            calls: Calls::new(failing, stop_after),
            contents: Contents::new(alloc, bytes)?,
        })
    }

    /// One of the images that a crash now may leave.
    pub fn image(&self, alloc: Global, pick: Pick) -> Result<Vec<u8>, NoMemory>
        ensures picked { IfOk result (λ image. image.items ≡ picked pick self.now.contents.moments) }
        ensures left { IfOk result (λ image. images_of self.now.contents.moments image.items) }
    {
        self.contents.image(alloc, pick)
    }
}

impl Disk for MemDisk {
    ghost bound_to = { λ disk. disk.bound };

    ghost is_attached = { λ disk. disk.attached };

    ghost content = { λ disk. Some (read_of disk.contents.moments) };

    ghost moments = { λ disk. disk.contents.moments };

    ghost images = { images_of };

    ghost faults = { λ disk. disk.calls.faults };

    ghost writes = { λ disk. writes_in disk.contents.moments };

    ghost reads_are_left = { λ disk. reads_are_left disk.contents.moments };

    ghost none_is_longer = { λ disk. none_is_longer disk.contents.moments };

    fn attach(&mut self, name: &str) -> Result<(), DiskFault>
        ensures cause { CountsFaults self.old.calls.faults self.new.calls.faults result }
        ensures next { AttachesNext name.now self.old self.new result }
    {
        self.calls.next()?;
        if self.name.is_none() {
            match String::from_str(self.alloc, name) {
                Ok(kept) => self.name = Some(kept),
                Err(_) => return Err(self.calls.fault()),
            }
        }
        self.attached = true;
        Ok(())
    }

    fn len(&mut self) -> Result<u64, DiskFault>
        ensures length { IfOk result (λ count. count ≡ length (read_of self.old.contents.moments)) }
        ensures cause { CountsFaults self.old.calls.faults self.new.calls.faults result }
        ensures next { ReadsNext self.old self.new result }
    {
        self.calls.next()?;
        Ok(self.contents.bytes().len() as u64)
    }

    fn read_at(&mut self, at: u64, into: &mut [u8]) -> Result<(), DiskFault>
        requires { at + length into.old ≤ length (read_of self.old.contents.moments) }
        ensures read { OnOk result (into.new
            ≡ slice_range (read_of self.old.contents.moments) at (at + length into.old)) }
        ensures cause { CountsFaults self.old.calls.faults self.new.calls.faults result }
        ensures next { ReadsNext self.old self.new result }
    {
        self.calls.next()?;
        copy_part(self.contents.bytes(), at as usize, into);
        Ok(())
    }

    fn write_at(&mut self, at: u64, bytes: &[u8]) -> Result<(), DiskFault>
        ensures writes { Writes images_of at bytes.now
            (Some (read_of self.old.contents.moments)) (Some (read_of self.new.contents.moments))
            self.old.contents.moments self.new.contents.moments result }
        ensures cause { CountsFaults self.old.calls.faults self.new.calls.faults result }
        ensures next { WritesNext at bytes.now self.old self.new result }
    {
        if let Err(fault) = self.calls.next() {
            self.contents.fail_to_write(at, bytes.len());
            return Err(fault);
        }
        if self.contents.write(self.alloc, at, bytes).is_err() {
            self.contents.fail_to_write(at, bytes.len());
            return Err(self.calls.fault());
        }
        Ok(())
    }

    fn sync(&mut self) -> Result<(), DiskFault>
        ensures syncs { Syncs images_of
            (Some (read_of self.old.contents.moments)) (Some (read_of self.new.contents.moments))
            self.old.contents.moments self.new.contents.moments result }
        ensures cause { CountsFaults self.old.calls.faults self.new.calls.faults result }
        ensures next { SyncsNext self.old self.new result }
    {
        self.calls.next()?;
        if self.contents.sync().is_err() {
            return Err(self.calls.fault());
        }
        Ok(())
    }

    fn faults(&self) -> u64 {
        self.calls.faults()
    }
}

/// Fills `into` with the bytes from this place on.
fn copy_part(bytes: &[u8], at: usize, into: &mut [u8])
    requires { at + length into.old ≤ length bytes.now }
    ensures { into.new ≡ slice_range bytes.now at (at + length into.old) }
{
    into.copy_from_slice(&bytes[at..at + into.len()]);
}
