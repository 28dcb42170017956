//! The second program: it hands the words of the command line and the files of the system to the top call, writes what
//! that answers, with `paint` in colours on a terminal, and ends with its status.
#![tactic(auto)]

mod paint;

use paint::painted;
use px_machine::Machine;
use px_system::StdHost;
use px_view::{Answer, view};
use std::alloc::Global;
use std::env::Env;
use std::io::{ErrorKind, IsTerminal};
use std::process::ExitCode;
use std::rt::Files;
use std::{env, fs, io};

// The status where the words are no text, or memory has run out before they are read.
const USAGE: u8 = 2;

// The status where the answer can't be written.
const WRITE_FAULT: u8 = 8;

fn main(rt: HostRuntime) -> ExitCode {
    let alloc = rt.alloc();
    let Ok(words) = command_words(&rt) else {
        return ExitCode::from(USAGE);
    };
    let mut host = StdHost::new(alloc, rt);
    let answer = view::<StdHost<HostRuntime>, Machine>(alloc, &words, &mut host);
    let is_terminal = rt.stdout().is_terminal();
    match write(&rt, alloc, is_terminal, &answer) {
        Ok(()) => ExitCode::from(answer.status),
        Err(_) => ExitCode::from(WRITE_FAULT),
    }
}

// Writes an answer where it goes, in colours where that is a terminal.
fn write<R: Print + Files>(
    rt: &R,
    alloc: Global,
    is_terminal: bool,
    answer: &Answer,
) -> io::Result<()> {
    match &answer.file {
        Some(name) => fs::write(rt, name.as_str(), answer.text.as_bytes()),
        None if is_terminal => rt.print(painted(alloc, answer.text.as_str())?),
        None => rt.print(answer.text.as_str()),
    }
}

// The words behind the program's own name.
fn command_words<R: Env + AllocGlobal>(rt: &R) -> io::Result<Vec<String>> {
    match env::args(rt) {
        Err(fault) if fault.kind() == ErrorKind::InvalidData => Ok(Vec::new(rt.alloc())),
        words => Ok(words?.skip(1).collect(rt.alloc())?),
    }
}
