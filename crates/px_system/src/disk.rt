// The real disk: one file of the system. It tells nothing of what the file holds.
ghost use Rattle.std.specs.Prelude.{◌≡◌, ◌↔◌, [], None, Some, false, is_some, IsTrue, IsOk, OnOk, OnErr};
ghost use Rattle.std.specs.Option.{option_map};
ghost use Rattle.std.specs.String.{string_bytes};
ghost use Rattle.std.proofs.lemmas.Option.{none-some};
ghost use Rattle.px_ports.specs.Disk.{CountsFaults};

use crate::tail::Tail;
use px_ports::{Disk, DiskFault};
use std::alloc::Global;
use std::fs::File;
use std::io::ErrorKind;
use std::os::unix::fs::FileExt;
use std::path::Path;
use std::rt::Files;
use std::{fs, io};

// A file of fewer bytes is no journal.
const LEAST_JOURNAL: u64 = 13;

/// What a disk does with its file.
#[derive(Clone, Copy)]
pub enum Access {
    /// It reads, and each write fails. Another disk may write to the file meanwhile: its end is read as it was when the
    /// length was asked for, until it is asked for again.
    Read,
    /// It reads and writes, and holds the file by its lock until it is dropped, so that no other disk writes to it, of this
    /// process or of another.
    Write,
}

/// A disk over what the runtime reaches, with its count of faults. It is bound where it is attached.
#[derive(Drop)]
pub struct StdDisk<R: Files<File = File>> {
    rt: R,
    alloc: Global,
    access: Access,
    name: Option<String>,
    // None where nothing has the name yet.
    file: Option<File>,
    // The end of the file when its length was told last, where the disk only reads.
    tail: Option<Tail>,
    // This disk has made the file, or another one may have, and the folder isn't synced yet.
    is_new: bool,
    // A sync has failed. The system may forget what it couldn't write then, so that no later sync can vouch for it.
    is_lost: bool,
    faults: u64,
}

impl<R: Files<File = File>> StdDisk<R> {
    /// A disk with no call yet.
    pub fn new(alloc: Global, rt: R, access: Access) -> Self
        ensures bound { ⟦<StdDisk<R> as Disk>⟧.bound_to result ≡ None }
        ensures attached { ⟦<StdDisk<R> as Disk>⟧.is_attached result ≡ false }
        ensures faults { ⟦<StdDisk<R> as Disk>⟧.faults result ≡ 0 }
    {
        StdDisk {
            rt,
            alloc,
            access,
            name: None,
            file: None,
            tail: None,
            is_new: false,
            is_lost: false,
            faults: 0,
        }
    }

    // Binds the disk to the name, and opens the file if there is one.
    fn bind(&mut self, name: &str) -> io::Result<()>
        ensures ok { OnOk result (option_map string_bytes self.new.name ≡ Some name.now) }
        ensures err { OnErr result (self.new.name ≡ self.old.name) }
        ensures faults { self.new.faults ≡ self.old.faults }
    {
        let kept = String::from_str(self.alloc, name)?;
        let file = open_if_there(&self.rt, self.access, name)?;
        self.is_new = may_be_new(self.access, &file)?;
        self.file = file;
        self.name = Some(kept);
        Ok(())
    }

    // The length of the file. Where the disk only reads, it keeps the file's end.
    fn measure(&mut self) -> io::Result<u64>
        ensures name { self.new.name ≡ self.old.name }
        ensures faults { self.new.faults ≡ self.old.faults }
    {
        let Some(file) = &mut self.file else {
            return Ok(0);
        };
        match self.access {
            Access::Read => {
                let tail = Tail::read(self.alloc, file)?;
                let length = tail.end();
                self.tail = Some(tail);
                Ok(length)
            }
            Access::Write => Ok(file.metadata()?.len()),
        }
    }

    // Fills `into` with the bytes from a place on.
    fn fill(&mut self, at: u64, into: &mut [u8]) -> io::Result<()>
        ensures name { self.new.name ≡ self.old.name }
        ensures faults { self.new.faults ≡ self.old.faults }
    {
        let Some(file) = &self.file else {
            return if into.is_empty() {
                Ok(())
            } else {
                Err(ErrorKind::UnexpectedEof.into())
            };
        };
        file.read_exact_at(into, at)?;
        match &self.tail {
            Some(tail) => tail.cover(at, into),
            None => Ok(()),
        }
    }

    // Writes all of the bytes, to a file that is made if there is none.
    fn put(&mut self, at: u64, bytes: &[u8]) -> io::Result<()>
        requires { IsTrue (is_some self.old.name) }
        ensures name { self.new.name ≡ self.old.name }
        ensures faults { self.new.faults ≡ self.old.faults }
    {
        if matches!(self.access, Access::Read) {
            return Err(ErrorKind::PermissionDenied.into());
        }
        let name = self.name.as_ref().unwrap();
        if self.file.is_none() {
            let file = File::create_new(&self.rt, name.as_str())?;
            file.try_lock()?;
            self.file = Some(file);
            self.is_new = true;
        }
        self.file.as_ref().unwrap().write_all_at(bytes, at)
    }

    // Syncs the file, and where it may be new, that its folder has it. With the data goes what is needed to read it back, as
    // the file's length; the time of the last write may be lost.
    fn sync_all(&mut self) -> io::Result<()>
        requires { IsTrue (is_some self.old.name) }
        ensures name { self.new.name ≡ self.old.name }
        ensures faults { self.new.faults ≡ self.old.faults }
    {
        if self.is_lost {
            return Err(ErrorKind::Other.into());
        }
        if let Some(file) = &self.file {
            file.sync_data()?;
        }
        if self.is_new {
            sync_folder(&self.rt, self.name.as_ref().unwrap().as_str())?;
            self.is_new = false;
        }
        Ok(())
    }
}

impl<R: Files<File = File>> Disk for StdDisk<R> {
    ghost bound_to = { λ disk. option_map string_bytes disk.name };

    ghost is_attached = { λ disk. is_some disk.name };

    ghost content = { λ _. None };

    ghost moments = { λ _. [] };

    // A crash may leave anything.
    ghost images = { λ _ _. Unit };

    ghost faults = { λ disk. disk.faults };

    // It counts none, so nothing is known of how many writes were asked for.
    ghost writes = { λ _. 0 };

    ghost reads_are_left = { λ _ told is. absurd (none-some told is) };

    ghost none_is_longer = { λ _ told is. absurd (none-some told is) };

    fn attach(&mut self, name: &str) -> Result<(), DiskFault> {
        if self.name.is_some() {
            return Ok(());
        }
        let answer = self.bind(name);
        counted(&mut self.faults, answer)
    }

    fn len(&mut self) -> Result<u64, DiskFault> {
        let answer = self.measure();
        counted(&mut self.faults, answer)
    }

    fn read_at(&mut self, at: u64, into: &mut [u8]) -> Result<(), DiskFault> {
        let answer = self.fill(at, into);
        counted(&mut self.faults, answer)
    }

    fn write_at(&mut self, at: u64, bytes: &[u8]) -> Result<(), DiskFault> {
        let answer = self.put(at, bytes);
        counted(&mut self.faults, answer)
    }

    fn sync(&mut self) -> Result<(), DiskFault> {
        let answer = self.sync_all();
        self.is_lost = answer.is_err();
        counted(&mut self.faults, answer)
    }

    fn faults(&self) -> u64 {
        self.faults
    }
}

// Counts a call that has failed.
fn counted<T>(faults: &mut u64, answer: io::Result<T>) -> Result<T, DiskFault>
    ensures cause { CountsFaults faults.old faults.new result }
    ensures ok { IsOk result ↔ IsOk answer }
{
    match answer {
        Ok(value) => Ok(value),
        Err(_) => {
            *faults = faults.saturating_add(1);
            Err(DiskFault)
        }
    }
}

// The file of this name, or none where nothing has it.
fn open_if_there<R: Files<File = File>>(
    rt: &R,
    access: Access,
    name: &str,
) -> io::Result<Option<File>> {
    let opened = match access {
        Access::Read => open_to_read(rt, name),
        Access::Write => open_to_write(rt, name),
    };
    let file = match opened {
        Err(fault) if fault.kind() == ErrorKind::NotFound => return Ok(None),
        opened => opened?,
    };
    if !file.metadata()?.is_file() {
        return Err(ErrorKind::InvalidInput.into());
    }
    Ok(Some(file))
}

// Opens a file for reading alone. What is none is refused by its name: to open a pipe would wait for its writer.
fn open_to_read<R: Files<File = File>>(rt: &R, name: &str) -> io::Result<File> {
    if !fs::metadata(rt, name)?.is_file() {
        return Err(ErrorKind::InvalidInput.into());
    }
    File::open(rt, name)
}

// Opens a file for writing and takes its lock, or fails where another disk has it. One that may only be read is opened all
// the same: a write to it fails.
fn open_to_write<R: Files<File = File>>(rt: &R, name: &str) -> io::Result<File> {
    let opened = match File::options().read(true).write(true).open(rt, name) {
        Err(fault)
            if matches!(
                fault.kind(),
                ErrorKind::PermissionDenied | ErrorKind::ReadOnlyFilesystem
            ) => { File::open(rt, name) }
        opened => opened,
    };
    let file = opened?;
    file.try_lock()?;
    Ok(file)
}

// Whether a file may be one that another disk has made and whose folder it hasn't synced: it is too short for a journal.
fn may_be_new(access: Access, file: &Option<File>) -> io::Result<bool> {
    match (access, file) {
        (Access::Write, Some(file)) => Ok(file.metadata()?.len() < LEAST_JOURNAL),
        _ => Ok(false),
    }
}

// Makes sure that the folder of a file has it. Some file systems can't sync a folder, and refuse it as no fit argument.
fn sync_folder<R: Files<File = File>>(rt: &R, name: &str) -> io::Result<()> {
    let folder = match Path::new(name).parent() {
        Some(folder) if !folder.as_str().is_empty() => folder.as_str(),
        _ => ".",
    };
    match File::open(rt, folder)?.sync_all() {
        Err(fault) if fault.kind() == ErrorKind::InvalidInput => Ok(()),
        synced => synced,
    }
}
