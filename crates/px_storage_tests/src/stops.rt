// A journal is made and gets an entry, and each device call fails behind the first, behind the second, and so on.
ghost use Rattle.std.specs.Prelude.{IsTrue};
ghost use Rattle.px_event.specs.Fit.{is_fit_entry};

use crate::journal::{NONE, PLAN, Read, WHOLE, completion, disk_of, is_read_as, picked};
use px_event::Entry;
use px_journal::Journal;
use px_ports::{Disk, Pick};
use std::alloc::Global;

// How the image of the last sync is read, that of a read, and those with what was written since filled with 0 and with 255.
struct Stop(u32, [Read; 4]);

const PICKS: [Pick; 4] = [Pick::Stable, Pick::Reads, Pick::Fill(0), Pick::Fill(255)];

// Call 1 attaches. A creation calls from 2 on: len, write, sync, write, sync, write, sync; an append: write, sync,
// write, sync.
const STOPS: [Stop; 12] = [
    Stop(1, [NONE, NONE, NONE, NONE]),
    Stop(2, [NONE, NONE, NONE, NONE]),
    Stop(3, [NONE, NONE, NONE, NONE]),
    Stop(4, [NONE, NONE, NONE, NONE]),
    Stop(5, [NONE, NONE, NONE, NONE]),
    // the write of the master gate fails, which fills nothing, or its sync
    Stop(6, [NONE, NONE, NONE, NONE]),
    Stop(7, [NONE, Ok(0), NONE, Ok(0)]),
    // the write of the record fails, or its sync
    Stop(8, [Ok(0), Ok(0), Ok(0), Ok(0)]),
    Stop(9, [Ok(0), Ok(0), Ok(0), Ok(0)]),
    // the write of its gate fails, or its sync
    Stop(10, [Ok(0), Ok(0), Ok(0), Ok(0)]),
    Stop(11, [Ok(0), Ok(1), Ok(0), Ok(1)]),
    Stop(12, [Ok(1), Ok(1), Ok(1), Ok(1)]),
];

// The disk behind a creation and an append.
fn after<D: Disk + Drop>(alloc: Global, disk: D, entry: &Entry) -> D
    requires attached { IsTrue (D.is_attached disk) }
    requires fit { IsTrue (is_fit_entry entry.now) }
{
    match Journal::create(alloc, disk, PLAN) {
        Ok(mut journal) => {
            let _ = journal.append(entry);
            journal.into_disk()
        }
        Err(fault) => fault.disk,
    }
}

// The image of the disk where each call fails behind so many.
fn image(
    alloc: Global,
    entry: &Entry,
    stop_after: Option<u32>,
    pick: Pick,
) -> anyhow::Result<Vec<u8>>
    requires { IsTrue (is_fit_entry entry.now) }
{
    match disk_of(alloc, &[], stop_after) {
        Ok(disk) => picked(alloc, after(alloc, disk, entry), pick),
        Err(fault) => Err(fault),
    }
}

/// How many images hold: those of the stops are nothing or have the history before or after, and one without a stop has the
/// bytes of a journal.
pub(crate) fn held(rt: &impl Print, alloc: Global) -> anyhow::Result<u64> {
    let entry = completion(alloc, 1)?;
    let held = held_with(rt, alloc, &entry);
    drop(entry);
    held
}

fn held_with(rt: &impl Print, alloc: Global, entry: &Entry) -> anyhow::Result<u64>
    requires { IsTrue (is_fit_entry entry.now) }
{
    let mut held = 0_u64;
    for Stop(calls, expected) in &STOPS {
        for (pick, expected) in PICKS.iter().zip(expected) {
            let image = image(alloc, entry, Some(*calls), *pick)?;
            let row = format!(in alloc; "{pick:?} behind {calls} calls")?;
            if is_read_as(rt, alloc, row.as_str(), &image, *expected)? {
                held = held.saturating_add(1);
            }
        }
    }
    let whole = image(alloc, entry, None, Pick::Stable)?;
    if whole.as_slice() == WHOLE.as_slice() {
        held = held.saturating_add(1);
    } else {
        println!(rt; "the journal of one record: {whole:?}")?;
    }
    Ok(held)
}
