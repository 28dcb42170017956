// The real disk.
ghost use Rattle.std.specs.Prelude.{◌≡◌, None};
ghost use Rattle.px_ports.specs.Disk.{IsFreeFor};

use crate::{FOLDER, MOVED};
use px_ports::Disk;
use px_system::{Access, StdDisk};
use std::alloc::Global;
use std::fs;
use std::fs::File;
use std::rt::Files;

// The file of each part, new to it.
const WRITTEN: &str = "plexil-files/written";

const HELD: &str = "plexil-files/held";

const READ: &str = "plexil-files/read";

const FAILING: &str = "plexil-files/failing";

/// What no disk is attached to, and what is said of it.
pub(crate) const REFUSED: [(&str, &str); 4] = [
    (FOLDER, "a folder is refused"),
    (
        "plexil-files/failing/file",
        "a name below a file is refused",
    ),
    ("/dev/null", "a device is refused"),
    ("a\0b", "what is no name is refused"),
];

// Whether no file has the name.
fn is_absent(rt: &impl Files, name: &str) -> bool {
    matches!(fs::exists(rt, name), Ok(false))
}

/// Whether a disk reads what another has written, while that is there.
pub(crate) fn is_read_again<R: Files<File = File> + Copy>(rt: R, alloc: Global) -> bool {
    let mut disk = StdDisk::new(alloc, rt, Access::Write);
    let mut next = StdDisk::new(alloc, rt, Access::Read);
    writes(&rt, &mut disk, WRITTEN) && reads(&mut next, WRITTEN)
}

// The first write makes the file.
fn writes<R: Files<File = File>>(rt: &R, disk: &mut StdDisk<R>, name: &str) -> bool
    requires { ⟦<StdDisk<R> as Disk>⟧.bound_to disk.old ≡ None }
{
    disk.attach(name).is_ok()
        && disk.sync().is_ok()
        && disk.len() == Ok(0)
        && is_absent(rt, name)
        && disk.write_at(0, b"abcde").is_ok()
        && disk.write_at(3, b"xyz").is_ok()
        && disk.sync().is_ok()
}

fn reads<R: Files<File = File>>(disk: &mut StdDisk<R>, name: &str) -> bool
    requires { ⟦<StdDisk<R> as Disk>⟧.bound_to disk.old ≡ None }
{
    let mut read = [0; 4];
    disk.attach(name).is_ok()
        && disk.read_at(1, &mut read).is_ok()
        && read == *b"bcxy"
        && disk.len() == Ok(6)
        && disk.faults() == 0
}

/// Whether one disk at a time writes to a file.
pub(crate) fn is_held_by_one<R: Files<File = File> + Copy>(rt: R, alloc: Global) -> bool {
    let mut early = StdDisk::new(alloc, rt, Access::Write);
    let mut disk = StdDisk::new(alloc, rt, Access::Write);
    let mut late = StdDisk::new(alloc, rt, Access::Write);
    let is_held = holds(&mut early, &mut disk, &mut late, HELD);
    drop(disk);
    is_held && takes_over(&mut late, HELD)
}

// The first that writes has the file, though another was attached before it was there.
fn holds<R: Files<File = File>>(
    early: &mut StdDisk<R>,
    disk: &mut StdDisk<R>,
    late: &mut StdDisk<R>,
    name: &str,
) -> bool
    requires early { ⟦<StdDisk<R> as Disk>⟧.bound_to early.old ≡ None }
    requires disk { ⟦<StdDisk<R> as Disk>⟧.bound_to disk.old ≡ None }
    requires late { ⟦<StdDisk<R> as Disk>⟧.bound_to late.old ≡ None }
    ensures { IsFreeFor name.now (⟦<StdDisk<R> as Disk>⟧.bound_to late.new) }
{
    early.attach(name).is_ok()
        && disk.attach(name).is_ok()
        && disk.write_at(0, b"a").is_ok()
        && early.write_at(0, b"b").is_err()
        && late.attach(name).is_err()
        && disk.write_at(1, b"c").is_ok()
}

fn takes_over<R: Files<File = File>>(disk: &mut StdDisk<R>, name: &str) -> bool
    requires { IsFreeFor name.now (⟦<StdDisk<R> as Disk>⟧.bound_to disk.old) }
{
    disk.attach(name).is_ok() && disk.write_at(2, b"d").is_ok()
}

/// Whether a disk that reads makes no file.
pub(crate) fn makes_nothing<R: Files<File = File> + Copy>(rt: R, alloc: Global) -> bool {
    let mut early = StdDisk::new(alloc, rt, Access::Read);
    refuses(&mut early, READ) && is_absent(&rt, READ)
}

// One that reads attaches, and each write fails.
fn refuses<R: Files<File = File>>(disk: &mut StdDisk<R>, name: &str) -> bool
    requires { ⟦<StdDisk<R> as Disk>⟧.bound_to disk.old ≡ None }
{
    disk.attach(name).is_ok() && disk.write_at(0, b"b").is_err()
}

/// Whether a disk that reads keeps what it has told of a file that grows.
pub(crate) fn keeps_its_end<R: Files<File = File> + Copy>(rt: R, alloc: Global) -> bool {
    let mut disk = StdDisk::new(alloc, rt, Access::Write);
    let mut reader = StdDisk::new(alloc, rt, Access::Read);
    keeps(&mut disk, &mut reader, READ)
}

// What one that reads was told of a file is what it reads, until it asks for the length again.
fn keeps<R: Files<File = File>>(disk: &mut StdDisk<R>, reader: &mut StdDisk<R>, name: &str) -> bool
    requires disk { ⟦<StdDisk<R> as Disk>⟧.bound_to disk.old ≡ None }
    requires reader { ⟦<StdDisk<R> as Disk>⟧.bound_to reader.old ≡ None }
{
    let mut kept = [0; 2];
    let mut grown = [0; 2];
    disk.attach(name).is_ok()
        && disk.write_at(0, b"ab").is_ok()
        && reader.attach(name).is_ok()
        && reader.write_at(0, b"b").is_err()
        && reader.len() == Ok(2)
        && disk.write_at(1, b"cd").is_ok()
        && reader.read_at(0, &mut kept).is_ok()
        && kept == *b"ab"
        && reader.len() == Ok(3)
        && reader.read_at(1, &mut grown).is_ok()
        && grown == *b"cd"
}

/// Whether a disk isn't attached to a name, and counts that.
pub(crate) fn is_refused<R: Files<File = File> + Copy>(rt: R, alloc: Global, name: &str) -> bool {
    let mut disk = StdDisk::new(alloc, rt, Access::Write);
    disk.attach(name).is_err() && disk.faults() == 1
}

/// Whether each call that fails is counted.
pub(crate) fn is_counted<R: Files<File = File> + Copy>(rt: R, alloc: Global) -> bool {
    let mut disk = StdDisk::new(alloc, rt, Access::Write);
    fails(&rt, &mut disk) && disk.faults() == 4
}

// Behind the end nothing is read, and at a place that no file has nothing is written. The folder of the new file can't be
// synced where it is gone, nor is the disk trusted when it can again.
fn fails<R: Files<File = File>>(rt: &R, disk: &mut StdDisk<R>) -> bool
    requires { ⟦<StdDisk<R> as Disk>⟧.bound_to disk.old ≡ None }
{
    disk.attach(FAILING).is_ok()
        && disk.write_at(0, b"abcde").is_ok()
        && disk.read_at(2, &mut [0; 4]).is_err()
        && disk.write_at(u64::MAX, b"f").is_err()
        && fs::rename(rt, FOLDER, MOVED).is_ok()
        && disk.sync().is_err()
        && fs::rename(rt, MOVED, FOLDER).is_ok()
        && disk.sync().is_err()
}
