//! Runs the real disk and the real host over files of the system, and says what holds of them.
//!
//! The files lie in a folder that is made where the program is run and removed at its end. A line is printed for each thing
//! that holds, and one that says what doesn't; before that of the host stands what this has written.
//!
//! Its functions own their disks without an early exit and lend them: an owner of some disks with many exits is dear to
//! prove.
#![tactic(auto)]

mod disk;
mod host;

use std::{fs, io};

/// The folder of the files, and where it is moved for a while.
const FOLDER: &str = "plexil-files";

const MOVED: &str = "plexil-files-moved";

fn main(rt: HostRuntime) -> io::Result<()> {
    let alloc = rt.alloc();
    fs::create_dir(&rt, FOLDER)?;
    let written = disk::is_read_again(rt, alloc);
    tell(&rt, written, "what was written is read by the next disk")?;
    let held = disk::is_held_by_one(rt, alloc);
    tell(&rt, held, "one disk at a time writes")?;
    let nothing = disk::makes_nothing(rt, alloc);
    tell(&rt, nothing, "one that reads makes nothing")?;
    let kept = disk::keeps_its_end(rt, alloc);
    tell(&rt, kept, "one that reads keeps what it has told")?;
    let counted = disk::is_counted(rt, alloc);
    tell(&rt, counted, "a failure is a failed call")?;
    for (name, what) in disk::REFUSED {
        let refused = disk::is_refused(rt, alloc, name);
        tell(&rt, refused, what)?;
    }
    let read = host::reads_and_writes(rt, alloc)?;
    tell(
        &rt,
        read,
        "files are read up to the limit, and bytes are written",
    )?;
    fs::remove_dir_all(&rt, FOLDER)
}

// Says what holds, or that it doesn't.
fn tell(rt: &impl Print, holds: bool, what: &str) -> io::Result<()> {
    let front = if holds { "" } else { "not so: " };
    println!(rt; "{front}{what}")
}
