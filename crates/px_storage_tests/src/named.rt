// Journals of the second version: their bytes, the names that are read, and the places of damage that the first version
// doesn't have.
ghost use Rattle.std.specs.Prelude.{IsTrue};
ghost use Rattle.px_event.specs.Fit.{is_fit_entry};

use crate::journal::{PLAN, WHOLE, completion, damaged, disk_of, is_read_as, picked};
use px_event::{Entry, Names};
use px_journal::Journal;
use px_ports::{Disk, Pick};
use px_value::Name;
use std::alloc::Global;

// The plan, and `handle A COMMAND_SUCCESS` from line 2 of thread 1, which has the name `arm`.
const NAMED: [u8; 48] = [
    1, 80, 76, 88, 74, 82, 78, 76, 50, 0, 0, 0, 16, // the master gate, the magic, the version and the length
    65, 58, 32, 123, 32, 68, 114, 105, 118, 101, 40, 51, 41, 59, 32, 125, // the text
    1, 0, 15, 1, 0, 0, 0, 2, 0, 3, 97, 114, 109, 2, 0, 1, 65, 6, // from place 29 on a gate, a length and the entry
    0, // the next gate, at place 47
];

// The same of a thread without a name.
const UNNAMED: [u8; 45] = [
    1, 80, 76, 88, 74, 82, 78, 76, 50, 0, 0, 0, 16, //
    65, 58, 32, 123, 32, 68, 114, 105, 118, 101, 40, 51, 41, 59, 32, 125, //
    1, 0, 12, 1, 0, 0, 0, 2, 0, 0, 2, 0, 1, 65, 6, //
    0,
];

/// How many journals hold whose entries are kept with names, or whose names are read, or that are damaged.
pub(crate) fn held(rt: &impl Print, alloc: Global) -> anyhow::Result<u64> {
    let entry = completion(alloc, 2)?;
    let kept = kept_held(rt, alloc, &entry);
    drop(entry);
    let read = read_held(rt, alloc)?;
    let damaged = damaged_held(rt, alloc)?;
    Ok(kept?.saturating_add(read).saturating_add(damaged))
}

// The thread with the name as the journal is made, the one with it as the entry is appended, and the journal's bytes.
const KEPT: [(u8, u8, &[u8]); 3] = [(1, 1, &NAMED), (2, 1, &NAMED), (1, 2, &UNNAMED)];

fn kept_held(rt: &impl Print, alloc: Global, entry: &Entry) -> anyhow::Result<u64>
    requires { IsTrue (is_fit_entry entry.now) }
{
    let mut held = 0_u64;
    for (first, then, expected) in KEPT {
        let bytes = renamed(alloc, entry, first, then)?;
        if bytes.as_slice() == expected {
            held = held.saturating_add(1);
        } else {
            println!(rt; "thread {first} has the name, then thread {then}: {bytes:?}")?;
        }
    }
    Ok(held)
}

// The name `arm` for a thread.
fn arm(alloc: Global, thread: u8) -> anyhow::Result<Names> {
    let mut names = Names::new(alloc);
    names.add(thread, Name::new(alloc, "arm")?)?;
    Ok(names)
}

// The bytes of a journal that is made with a name for one thread, then has it for another, and then gets the entry.
fn renamed(alloc: Global, entry: &Entry, first: u8, then: u8) -> anyhow::Result<Vec<u8>>
    requires { IsTrue (is_fit_entry entry.now) }
{
    let first = arm(alloc, first)?;
    let then = arm(alloc, then)?;
    match disk_of(alloc, &[], None) {
        Ok(disk) => picked(alloc, after(alloc, disk, entry, first, then), Pick::Stable),
        Err(fault) => Err(fault),
    }
}

fn after<D: Disk + Drop>(alloc: Global, disk: D, entry: &Entry, first: Names, then: Names) -> D
    requires attached { IsTrue (D.is_attached disk) }
    requires fit { IsTrue (is_fit_entry entry.now) }
{
    match Journal::create_named(alloc, disk, PLAN, first) {
        Ok(mut journal) => {
            journal.rename(then);
            let _ = journal.append(entry);
            journal.into_disk()
        }
        Err(fault) => fault.disk,
    }
}

// A journal, and the name of its entry.
const READ: [(&[u8], &str); 3] = [(&NAMED, "arm"), (&UNNAMED, "-"), (&WHOLE, "-")];

fn read_held(rt: &impl Print, alloc: Global) -> anyhow::Result<u64> {
    let mut held = 0_u64;
    for (bytes, expected) in READ {
        let name = match disk_of(alloc, bytes, None) {
            Ok(disk) => name_on(alloc, disk)?,
            Err(fault) => return Err(fault),
        };
        if name.as_str() == expected {
            held = held.saturating_add(1);
        } else {
            println!(rt; "the name {name} in place of {expected}: {bytes:?}")?;
        }
    }
    Ok(held)
}

// The name of the one entry that a journal has, or why there isn't one.
fn name_on<D: Disk + Drop>(alloc: Global, disk: D) -> anyhow::Result<String>
    requires { IsTrue (D.is_attached disk) }
{
    match Journal::recover(alloc, disk) {
        Ok(recovered) => {
            let name = String::from_str(alloc, only_name(&recovered.names));
            drop(recovered);
            Ok(name?)
        }
        Err(fault) => {
            let why = fault.why;
            drop(fault);
            Ok(format!(in alloc; "{why}")?)
        }
    }
}

fn only_name(names: &[Option<Name>]) -> &str {
    match names {
        [Some(name)] => name.as_str(),
        [None] => "-",
        _ => "of more or less than one",
    }
}

// A journal, a place that is changed, its new byte, and the place of damage.
const DAMAGED: [(&[u8], usize, u8, u64); 6] = [
    (&NAMED, 8, b'0', 8),
    (&NAMED, 8, b'3', 8),
    // an entry of the other version
    (&NAMED, 8, b'1', 32),
    (&WHOLE, 8, b'2', 32),
    // the name `1rm`, and `ar` before the kind `m`
    (&NAMED, 39, b'1', 32),
    (&NAMED, 38, 2, 32),
];

fn damaged_held(rt: &impl Print, alloc: Global) -> anyhow::Result<u64> {
    let mut held = 0_u64;
    for (bytes, place, byte, at) in DAMAGED {
        let mut changed = bytes.to_vec(alloc)?;
        if let Some(old) = changed.get_mut(place) {
            *old = byte;
        }
        let row = format!(in alloc; "the byte {byte} at place {place} of a journal with names")?;
        if is_read_as(rt, alloc, row.as_str(), &changed, damaged(at))? {
            held = held.saturating_add(1);
        }
    }
    Ok(held)
}
