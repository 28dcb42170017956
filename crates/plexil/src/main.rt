//! The program: it hands the words of the command line, the files of the system, a disk for the journal and standard
//! output to the top call, and ends with its status.
#![tactic(auto)]

use px_script::NoPace;
use px_system::{Access, StdDisk, StdHost};
use px_top::plexil;
use std::env::Env;
use std::io::ErrorKind;
use std::process::ExitCode;
use std::{env, io};

// The status where memory has run out before the command is known.
const WANT_OF_MEMORY: u8 = 10;

fn main(rt: HostRuntime) -> ExitCode {
    let alloc = rt.alloc();
    let Ok(words) = command_words(&rt) else {
        return ExitCode::from(WANT_OF_MEMORY);
    };
    let disk = StdDisk::new(alloc, rt, access_for(&words));
    let mut host = StdHost::new(alloc, rt);
    ExitCode::from(plexil(&rt, alloc, &words, &mut host, disk, &NoPace).status)
}

// What the command does with its journal: `trace` and `names` write nothing, so that they can stand beside a command that
// does.
fn access_for(words: &[String]) -> Access {
    match words.first() {
        Some(name) if matches!(name.as_str(), "trace" | "names") => Access::Read,
        _ => Access::Write,
    }
}

// The words behind the program's own name. A command line that isn't UTF-8 is faulty, and stands as one
// without words, which is faulty too.
fn command_words<R: Env + AllocGlobal>(rt: &R) -> io::Result<Vec<String>> {
    match env::args(rt) {
        Err(fault) if fault.kind() == ErrorKind::InvalidData => Ok(Vec::new(rt.alloc())),
        words => Ok(words?.skip(1).collect(rt.alloc())?),
    }
}
