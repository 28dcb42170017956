// A call of the program over a host in memory that has two files, and a disk in memory.
ghost use Rattle.std.specs.Prelude.{◌≡◌, None, IfOk};

use crate::faults::Faults;
use crate::pacing::Pacing;
use px_machine::Machine;
use px_ports::{MemDisk, MemFile, MemHost, Pick};
use px_run::{Done, plexil_over};
use px_sem::Stepper;
use std::alloc::Global;
use std::sync::Wait;
use std::thread::Threads;

/// The words of a call, and what it finds: the content of the files P and S, the disk or the file J, and what goes wrong.
#[derive(Clone, Copy)]
pub(crate) struct Call<'a> {
    pub(crate) words: &'a str,
    pub(crate) plan: &'a [u8],
    pub(crate) script: &'a [u8],
    pub(crate) journal: &'a [u8],
    pub(crate) faults: Faults,
}

/// The status of a call, what was emitted, and the picked image of the disk then.
#[derive(Drop)]
pub(crate) struct Answer {
    pub(crate) status: u8,
    pub(crate) text: String,
    pub(crate) left: Vec<u8>,
}

/// A file of the host.
pub(crate) fn file(alloc: Global, name: &str, bytes: &[u8]) -> anyhow::Result<MemFile> {
    Ok(MemFile {
        name: String::from_str(alloc, name)?,
        bytes: bytes.to_vec(alloc)?,
    })
}

/// The words of a command.
pub(crate) fn words_of(alloc: Global, words: &str) -> anyhow::Result<Vec<String>> {
    let mut owned = Vec::new(alloc);
    for word in words.split_whitespace() {
        owned.push(String::from_str(alloc, word)?)?;
    }
    Ok(owned)
}

// The number alone, where there is one.
fn listed(alloc: Global, number: Option<u32>) -> anyhow::Result<Vec<u32>> {
    let mut numbers = Vec::new(alloc);
    if let Some(number) = number {
        numbers.push(number)?;
    }
    Ok(numbers)
}

fn host_of(alloc: Global, call: Call<'_>) -> anyhow::Result<MemHost> {
    let files = vec![in alloc;
        file(alloc, "P", call.plan)?,
        file(alloc, "S", call.script)?,
    ]?;
    let fetches = listed(alloc, call.faults.fetch)?;
    let emits = listed(alloc, call.faults.emit)?;
    Ok(MemHost::new(alloc, files, fetches, emits, call.faults.piece)?)
}

fn disk_of(alloc: Global, call: Call<'_>) -> anyhow::Result<MemDisk>
    ensures { IfOk result (λ disk. disk.bound ≡ None) }
{
    let failing = listed(alloc, call.faults.device)?;
    let bytes = call.journal.to_vec(alloc)?;
    Ok(MemDisk::new(alloc, bytes, failing, call.faults.stop)?)
}

/// What the call answers on the stepper that the program runs on, where the threads are held up so.
pub(crate) fn answer_of<R: Threads + Wait + Sync>(
    rt: &R,
    alloc: Global,
    call: Call<'_>,
    pacing: &Pacing<'_>,
) -> anyhow::Result<Answer> {
    answer_over::<Machine, R>(rt, alloc, call, pacing)
}

/// The same on a stepper of this type.
pub(crate) fn answer_over<S: Stepper + Send, R: Threads + Wait + Sync>(
    rt: &R,
    alloc: Global,
    call: Call<'_>,
    pacing: &Pacing<'_>,
) -> anyhow::Result<Answer> {
    let words = words_of(alloc, call.words)?;
    let mut host = host_of(alloc, call)?;
    answer_at::<S, R>(rt, alloc, &words, &mut host, call, pacing)
}

// The same over a host, with these words.
fn answer_at<S: Stepper + Send, R: Threads + Wait + Sync>(
    rt: &R,
    alloc: Global,
    words: &[String],
    host: &mut MemHost,
    call: Call<'_>,
    pacing: &Pacing<'_>,
) -> anyhow::Result<Answer> {
    let disk = disk_of(alloc, call)?;
    let Done { status, disk } = plexil_over::<MemHost, MemDisk, S, Pacing<'_>, R>(
        rt, alloc, words, host, disk, pacing,
    );
    answer_with(alloc, status, host, &disk, call.faults.image)
}

// What was emitted and is left.
fn answer_with(
    alloc: Global,
    status: u8,
    host: &MemHost,
    disk: &MemDisk,
    image: Pick,
) -> anyhow::Result<Answer> {
    let emitted = host.emitted().to_vec(alloc)?;
    let text = String::from_utf8(emitted)?;
    let left = disk.image(alloc, image)?;
    Ok(Answer { status, text, left })
}
