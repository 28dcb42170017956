// The command `journal`.
ghost use Rattle.std.specs.Prelude.{IfOk, IsTrue};

use crate::answer::{JOURNAL_REFUSED, Stop};
use crate::counts::push_count;
use crate::gates::last_gate;
use px_event::Entry;
use px_journal::{Journal, RecoverWhy, Recovered};
use px_pen::Pen;
use px_ports::{Disk, MemDisk};
use px_trace::push_heading;
use px_value::NoMemory;
use std::alloc::Global;
use std::str::from_utf8;

/// The most bytes of a journal's file that is read.
pub const JOURNAL_LIMIT: usize = 1_000_000_000;

/// Says what the bytes of a journal's file hold.
pub fn list_journal(alloc: Global, name: &str, bytes: Vec<u8>, out: &mut Pen) -> Result<(), Stop> {
    match recovered(alloc, &bytes) {
        Ok(read) => whole(alloc, name, &bytes, &read, out),
        Err(RecoverWhy::NoJournal) => Err(nothing(name, bytes.len(), out)),
        Err(RecoverWhy::Damaged { at }) => damaged(alloc, name, bytes, at as usize, out),
        Err(RecoverWhy::DiskFault | RecoverWhy::NoMemory) => Err(Stop::NoMemory),
    }
}

/// The text and the history of a journal.
#[derive(Drop)]
pub struct Held {
    pub text: Vec<u8>,
    pub history: Vec<Entry>,
}

/// What the bytes of a journal stand for.
pub fn recovered(alloc: Global, bytes: &[u8]) -> Result<Held, RecoverWhy> {
    match Journal::recover(alloc, disk_of(alloc, bytes)?) {
        Ok(read) => Ok(text_and_history(read)),
        Err(fault) => Err(fault.why),
    }
}

fn text_and_history(read: Recovered<MemDisk>) -> Held {
    let Recovered {
        journal,
        plan,
        history,
        ..
    } = read;
    drop(journal);
    Held {
        text: plan,
        history,
    }
}

fn disk_of(alloc: Global, bytes: &[u8]) -> Result<MemDisk, RecoverWhy>
    ensures { IfOk result (λ disk. IsTrue disk.attached) }
{
    let bytes = bytes.to_vec(alloc)?;
    attached(MemDisk::new(alloc, bytes, Vec::new(alloc), None)?)
}

fn attached(mut disk: MemDisk) -> Result<MemDisk, RecoverWhy>
    ensures { IfOk result (λ disk. IsTrue disk.attached) }
{
    match disk.attach("journal") {
        Ok(()) => Ok(disk),
        Err(_) => Err(RecoverWhy::DiskFault),
    }
}

fn whole(alloc: Global, name: &str, bytes: &[u8], read: &Held, out: &mut Pen) -> Result<(), Stop> {
    let length = bytes.len();
    out.fill("{}: a journal of ", name);
    out.fill_each(
        "{} bytes, {} of them the plan's text\n",
        &[length, read.text.len()],
    );
    push_history(alloc, &read.history, out)?;
    let end = last_gate(bytes, length).saturating_add(1);
    out.fill_each(
        "the history ends at byte {}; {} bytes behind it are nobody's\n",
        &[end, length.saturating_sub(end)],
    );
    Ok(())
}

fn push_history(alloc: Global, history: &[Entry], out: &mut Pen) -> Result<(), NoMemory> {
    let mut lines = Vec::new(alloc);
    push_headings(alloc, history, &mut lines)?;
    out.push(from_utf8(&lines).unwrap_or("(a text of the history is no UTF-8)\n"));
    push_count(history.len(), "event", out);
    Ok(())
}

fn push_headings(alloc: Global, history: &[Entry], lines: &mut Vec<u8>) -> Result<(), NoMemory> {
    let mut position: u32 = 0;
    for entry in history {
        position = position.saturating_add(1);
        push_heading(alloc, position, entry, lines)?;
    }
    Ok(())
}

fn nothing(name: &str, length: usize, out: &mut Pen) -> Stop {
    out.fill("{}: no journal, in ", name);
    out.fill_each("{} bytes: it was never made to its end\n", &[length]);
    Stop::Refused(JOURNAL_REFUSED)
}

fn damaged(
    alloc: Global,
    name: &str,
    bytes: Vec<u8>,
    at: usize,
    out: &mut Pen,
) -> Result<(), Stop> {
    let gate = last_gate(&bytes, at);
    out.fill("{}: damaged at byte ", name);
    out.fill_each("{} of {}: ", &[at, bytes.len()]);
    out.fill("{}\n", why_at(at, gate));
    push_before(alloc, bytes, gate, out)?;
    Err(Stop::Refused(JOURNAL_REFUSED))
}

fn why_at(at: usize, gate: usize) -> &'static str {
    match at.saturating_sub(gate) {
        _ if at < 8 => "the file doesn't begin as a journal does",
        _ if at == 8 => "its version is neither 1 nor 2",
        _ if at < 13 => "the plan's text is too long, or longer than the file",
        1 => "the length of this record, or the gate behind it, lies past the end",
        3 => "this record is no entry",
        _ => "there are over 100,000 records",
    }
}

// The history before a damaged record, as if its gate were closed.
fn push_before(
    alloc: Global,
    mut bytes: Vec<u8>,
    gate: usize,
    out: &mut Pen,
) -> Result<(), NoMemory> {
    if gate < bytes.len() {
        bytes[gate] = 0;
    }
    match recovered(alloc, &bytes) {
        Ok(read) => {
            out.push("before it:\n");
            push_history(alloc, &read.history, out)
        }
        Err(_) => Ok(()),
    }
}
