// What makes journals over a disk in memory, and reads them.
ghost use Rattle.std.specs.Prelude.{◌≡◌, None, IsTrue, IfOk};
ghost use Rattle.px_event.specs.Fit.{is_fit_entry};

use anyhow::bail;
use px_event::{Entry, Event};
use px_journal::{Journal, RecoverWhy};
use px_ports::{Disk, MemDisk, Pick};
use px_value::{Handle, Path};
use std::alloc::Global;

pub(crate) const PLAN: &[u8] = b"A: { Drive(3); }";

/// The plan, and `handle A COMMAND_SUCCESS` from line 1 of thread 1.
pub(crate) const WHOLE: [u8; 43] = [
    1, 80, 76, 88, 74, 82, 78, 76, 49, 0, 0, 0, 16, // the master gate, the magic, the version and the length
    65, 58, 32, 123, 32, 68, 114, 105, 118, 101, 40, 51, 41, 59, 32, 125, // the text
    1, 0, 10, 1, 0, 0, 0, 1, 2, 0, 1, 65, 6, // from place 29 on a gate, a length and an entry
    0, // the next gate, at place 42
];

/// How many records a journal has, or why it isn't read.
pub(crate) type Read = Result<usize, RecoverWhy>;

pub(crate) const NONE: Read = Err(RecoverWhy::NoJournal);

pub(crate) const fn damaged(at: u64) -> Read {
    Err(RecoverWhy::Damaged { at })
}

/// `handle A COMMAND_SUCCESS` from a line of thread 1.
pub(crate) fn completion(alloc: Global, line: u32) -> anyhow::Result<Entry>
    ensures { IfOk result (λ entry. IsTrue (is_fit_entry entry)) }
{
    let node = Path::new(alloc, "A")?;
    let entry = Entry {
        thread: 1,
        line,
        event: Event::Handle {
            node,
            handle: Handle::CommandSuccess,
        },
    };
    if !entry.is_fit() {
        bail!("the entry isn't fit");
    }
    Ok(entry)
}

/// A disk with these bytes, attached, each call of which fails behind so many.
pub(crate) fn disk_of(
    alloc: Global,
    bytes: &[u8],
    stop_after: Option<u32>,
) -> anyhow::Result<MemDisk>
    ensures { IfOk result (λ disk. IsTrue disk.attached) }
{
    let bytes = bytes.to_vec(alloc)?;
    match MemDisk::new(alloc, bytes, Vec::new(alloc), stop_after) {
        Ok(disk) => attached(disk),
        Err(fault) => Err(fault.into()),
    }
}

fn attached<D: Disk + Drop>(mut disk: D) -> anyhow::Result<D>
    requires { D.bound_to disk ≡ None }
    ensures { IfOk result (λ disk. IsTrue (D.is_attached disk)) }
{
    if disk.attach("journal").is_err() {
        bail!("the disk isn't attached");
    }
    Ok(disk)
}

/// An image that a crash may leave of the disk.
pub(crate) fn picked(alloc: Global, disk: MemDisk, pick: Pick) -> anyhow::Result<Vec<u8>> {
    let image = disk.image(alloc, pick);
    drop(disk);
    Ok(image?)
}

/// How bytes are read.
pub(crate) fn read(alloc: Global, bytes: &[u8]) -> anyhow::Result<Read> {
    match disk_of(alloc, bytes, None) {
        Ok(disk) => Ok(read_on(alloc, disk)),
        Err(fault) => Err(fault),
    }
}

fn read_on<D: Disk + Drop>(alloc: Global, disk: D) -> Read
    requires { IsTrue (D.is_attached disk) }
{
    match Journal::recover(alloc, disk) {
        Ok(recovered) => {
            let records = recovered.history.len();
            drop(recovered);
            Ok(records)
        }
        Err(fault) => {
            let why = fault.why;
            drop(fault);
            Err(why)
        }
    }
}

/// Whether bytes are read so; else it is told of the row.
pub(crate) fn is_read_as(
    rt: &impl Print,
    alloc: Global,
    row: &str,
    bytes: &[u8],
    expected: Read,
) -> anyhow::Result<bool> {
    let found = read(alloc, bytes)?;
    if found == expected {
        return Ok(true);
    }
    println!(rt; "{row}: {found:?} in place of {expected:?}")?;
    Ok(false)
}
