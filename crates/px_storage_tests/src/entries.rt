// Entries as long as may be, or longer by one, and each byte of an entry changed.
use anyhow::bail;
use px_event::{DecodeFault, decode, encode};
use px_value::NoMemory;
use std::alloc::Global;

const REPORT: u8 = 1;

const ABORT_DONE: u8 = 4;

// Whether the bytes are those of an entry, which then has them again.
fn is_entry(alloc: Global, bytes: &[u8]) -> anyhow::Result<bool> {
    let encoded = match decode(alloc, bytes) {
        Ok(entry) => {
            let encoded = encode(alloc, &entry);
            drop(entry);
            encoded?
        }
        Err(DecodeFault::Bad) => return Ok(false),
        Err(fault) => return Err(fault.into()),
    };
    if encoded.as_slice() != bytes {
        bail!("the entry of {bytes:?} has other bytes: {encoded:?}");
    }
    Ok(true)
}

// Appends the bytes of a text of so many letters.
fn push_letters(out: &mut Vec<u8>, count: u16) -> Result<(), NoMemory> {
    out.extend_from_slice(&count.to_be_bytes())?;
    for _ in 0..count {
        out.push(b'a')?;
    }
    Ok(())
}

// A report of a name of so many letters, and of so many arguments and a value, each a text of so many letters.
fn report(alloc: Global, name: u16, arguments: u8, text: u16) -> Result<Vec<u8>, NoMemory> {
    let mut bytes = [1, 0, 0, 0, 1, REPORT].to_vec(alloc)?;
    push_letters(&mut bytes, name)?;
    bytes.push(arguments)?;
    for _ in 0..=arguments {
        bytes.push(4)?;
        push_letters(&mut bytes, text)?;
    }
    Ok(bytes)
}

// An abort that is done, of a node whose path has so many bytes: `first` and 2,499 times `.a`.
fn abort_done(alloc: Global, size: u16, first: &str) -> Result<Vec<u8>, NoMemory> {
    let mut bytes = [1, 0, 0, 0, 1, ABORT_DONE].to_vec(alloc)?;
    bytes.extend_from_slice(&size.to_be_bytes())?;
    bytes.extend_from_slice(first.as_bytes())?;
    for _ in 0..2499 {
        bytes.extend_from_slice(b".a")?;
    }
    Ok(bytes)
}

// Whether bytes are those of an entry where they have to be; else it is told.
fn holds(rt: &impl Print, alloc: Global, bytes: &[u8], is: bool) -> anyhow::Result<bool> {
    if is_entry(alloc, bytes)? == is {
        return Ok(true);
    }
    println!(rt; "an entry, {}: {bytes:?}", !is)?;
    Ok(false)
}

// How many letters a report's name has, how many arguments it has, how many letters each of them and the value have, how
// many bytes that makes, and whether it is an entry.
const REPORTS: [(u16, u8, u16, usize, bool); 4] = [
    (64, 8, 1024, 9316, true),
    (65, 8, 1024, 9317, false),
    (64, 9, 1024, 10343, false),
    (64, 8, 1025, 9325, false),
];

// How many bytes a node's path has, what it begins with, and whether the end of its abort is an entry.
const ABORTS: [(u16, &str, bool); 2] = [(5000, "aa", true), (5001, "aaa", false)];

/// How many of the entries hold that are as long as may be, or longer by one.
pub(crate) fn lengths_held(rt: &impl Print, alloc: Global) -> anyhow::Result<u64> {
    let mut held = 0_u64;
    for (name, arguments, text, length, is) in REPORTS {
        let bytes = report(alloc, name, arguments, text)?;
        if bytes.len() != length {
            bail!("a report of {} bytes in place of {length}", bytes.len());
        }
        if holds(rt, alloc, &bytes, is)? {
            held = held.saturating_add(1);
        }
    }
    for (size, first, is) in ABORTS {
        let bytes = abort_done(alloc, size, first)?;
        if holds(rt, alloc, &bytes, is)? {
            held = held.saturating_add(1);
        }
    }
    Ok(held)
}

const ENTRIES: [&[u8]; 3] = [
    &[1, 0, 0, 0, 1, 2, 0, 1, 65, 6],
    &[1, 0, 0, 0, 1, 1, 0, 2, 103, 111, 2, 2, 3, 0, 0, 0, 7, 0],
    &[2, 0, 0, 0, 9, 3, 0, 3, 65, 46, 66, 4, 0, 2, 195, 169],
];

/// How many fronts and changed bytes of entries hold.
pub(crate) fn changes_held(rt: &impl Print, alloc: Global) -> anyhow::Result<u64> {
    let mut held = 0_u64;
    for entry in ENTRIES {
        let fronts = fronts_held(rt, alloc, entry)?;
        let changes = bytes_held(rt, alloc, entry)?;
        held = held.saturating_add(fronts).saturating_add(changes);
    }
    Ok(held)
}

// Of an entry with a byte behind it, only the front without this byte is an entry.
fn fronts_held(rt: &impl Print, alloc: Global, entry: &[u8]) -> anyhow::Result<u64> {
    let mut held = 0_u64;
    let mut longer = entry.to_vec(alloc)?;
    longer.push(0)?;
    for count in 0..=longer.len() {
        if holds(rt, alloc, &longer[..count], count == entry.len())? {
            held = held.saturating_add(1);
        }
    }
    Ok(held)
}

// With any byte in the place of another, no entry is spelled, or just these bytes; with its own it is the entry.
fn bytes_held(rt: &impl Print, alloc: Global, entry: &[u8]) -> anyhow::Result<u64> {
    let mut held = 0_u64;
    for (i, &old) in entry.iter().enumerate() {
        for byte in 0..=255 {
            let mut bytes = entry.to_vec(alloc)?;
            if let Some(place) = bytes.get_mut(i) {
                *place = byte;
            }
            if is_entry(alloc, &bytes)? || byte != old {
                held = held.saturating_add(1);
            } else {
                println!(rt; "no entry: {bytes:?}")?;
            }
        }
    }
    Ok(held)
}
