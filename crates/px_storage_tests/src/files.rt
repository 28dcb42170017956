// What is found where a journal is made or read: a foreign file, and as many records as there may be.
use crate::journal::{WHOLE, damaged, disk_of, is_read_as, picked, read};
use anyhow::bail;
use px_journal::{CreateFault, CreateWhy, Journal, RECORD_LIMIT};
use px_ports::{MemDisk, Pick};
use std::alloc::Global;

// The bytes of a file, and whether a new journal takes their place.
const FILES: [(&[u8], bool); 4] = [
    (&[7; 12], true),
    (&[7; 13], false),
    (&[0, 7, 7, 7, 7, 7, 7, 7, 7, 7, 7, 7, 7], true),
    (&[0, 7, 7, 7, 7, 7, 7, 7, 7, 7, 7, 7, 7, 7, 7, 7], true),
];

/// How many of the foreign files hold.
pub(crate) fn held(rt: &impl Print, alloc: Global) -> anyhow::Result<u64> {
    let mut held = 0_u64;
    for (bytes, expected) in FILES {
        if is_overwritten(alloc, bytes)? == expected {
            held = held.saturating_add(1);
        } else {
            println!(rt; "overwritten, {}: {bytes:?}", !expected)?;
        }
    }
    Ok(held)
}

// Whether a journal of no text takes the place of these bytes.
fn is_overwritten(alloc: Global, bytes: &[u8]) -> anyhow::Result<bool> {
    match Journal::create(alloc, disk_of(alloc, bytes, None)?, &[]) {
        Ok(journal) => is_new(alloc, journal.into_disk()),
        Err(fault) => is_changed(alloc, fault, bytes),
    }
}

// The journal has no record.
fn is_new(alloc: Global, disk: MemDisk) -> anyhow::Result<bool> {
    let image = picked(alloc, disk, Pick::Stable)?;
    let found = read(alloc, &image)?;
    if found != Ok(0) {
        bail!("a new journal is read as {found:?}: {image:?}");
    }
    Ok(true)
}

// The file was there, and has its bytes.
fn is_changed(alloc: Global, fault: CreateFault<MemDisk>, bytes: &[u8]) -> anyhow::Result<bool> {
    let CreateFault { disk, why } = fault;
    let left = picked(alloc, disk, Pick::Reads)?;
    if why != CreateWhy::Exists || left.as_slice() != bytes {
        bail!("{why}, and {left:?} is left of {bytes:?}");
    }
    Ok(false)
}

/// How many of two journals hold: one with as many records as there may be, and one with an open gate behind them.
pub(crate) fn counts_held(rt: &impl Print, alloc: Global) -> anyhow::Result<u64> {
    let mut held = 0_u64;
    let mut bytes = most_records(alloc)?;
    bytes.push(0)?;
    if is_read_as(rt, alloc, "100,000 records", &bytes, Ok(100_000))? {
        held = held.saturating_add(1);
    }
    let _ = bytes.pop();
    bytes.push(1)?;
    // 29 and 100,000 records of 13 bytes
    if is_read_as(rt, alloc, "a record more", &bytes, damaged(1_300_029))? {
        held = held.saturating_add(1);
    }
    Ok(held)
}

// A journal of as many records as there may be, but for the gate behind them.
fn most_records(alloc: Global) -> anyhow::Result<Vec<u8>> {
    let mut bytes = WHOLE[..29].to_vec(alloc)?;
    for _ in 0..RECORD_LIMIT {
        bytes.extend_from_slice(&WHOLE[29..42])?;
    }
    Ok(bytes)
}
