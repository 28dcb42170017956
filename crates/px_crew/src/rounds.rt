// The threads of a script, each worked off by a worker on a thread of its own, in rounds.
ghost use Rattle.std.specs.Prelude.{◌≡◌, ◌≤◌, ◌<◌, ◌^◌, sum_by, length};
ghost use Rattle.px_script.specs.Fit.{IsFitScript};
ghost use Rattle.px_crew.specs.Work.{work_end, AreReady, HaveWorked, ComesTo, IsReadyAt, HasWorkedAt, IsEndOf};

use crate::standstill::standstill;
use crate::walking::{Reach, Stop, walk};
use px_desk::Desk;
use px_script::{CrewEnd, Pace, Script, Todo, WorkEnd, Worker};
use std::alloc::Global;
use std::sync::Wait;
use std::thread::{Threads, for_each_mut};

/// No script has more, so each worker has a thread of its own.
const THREADS: usize = 8;

/// Lets the workers of a script's threads go on, in rounds: until all lines are passed, an append fails, memory runs out,
/// or a round has passed no line while some are left. In each round every worker goes on as far as its lines go, on a thread
/// of its own where one can be made, and else one after another. No wait holds a thread up: its worker tries again in the
/// next round.
///
/// `Disk` comes exactly where a worker's end is `Disk`, and `Done` exactly where no line is left. `Stalled` has the waits in
/// order of thread: each was not met behind what its worker's seat has seen, and may be by now.
pub fn work<K: Desk, P: Pace, R: Threads + Wait + Sync>(
    rt: &R,
    alloc: Global,
    desk: &K,
    workers: &mut [Worker<K::Seat>],
    script: &Script,
    pace: &P,
) -> CrewEnd
    requires fit { IsFitScript script.now }
    requires ready { AreReady (K.start desk.now) (K.fits desk.now) K.seating script.now.threads workers.old }
    ensures worked { HaveWorked (K.start desk.now) (K.fits desk.now) K.seating script.now.threads workers.old workers.new }
    ensures comes { ComesTo (K.start desk.now) (K.fits desk.now) K.seating script.now.threads workers.new result }
{
    let lines = line_count(script.threads.as_slice());
    loop {
        let before = passed(workers);
        round(rt, alloc, desk, workers, script, pace);
        match end_of(workers) {
            WorkEnd::Going => {}
            WorkEnd::Disk => return CrewEnd::Disk,
            WorkEnd::NoMemory => return CrewEnd::NoMemory,
        }
        let now = passed(workers);
        if now == before || now == lines {
            return standstill(alloc, script.threads.as_slice(), workers);
        }
    }
}

/// Lets every worker go on, each on a thread of its own.
fn round<K: Desk, P: Pace, R: Threads + Wait + Sync>(
    rt: &R,
    alloc: Global,
    desk: &K,
    workers: &mut [Worker<K::Seat>],
    script: &Script,
    pace: &P,
)
    requires fit { IsFitScript script.now }
    requires ready { AreReady (K.start desk.now) (K.fits desk.now) K.seating script.now.threads workers.old }
    ensures { HaveWorked (K.start desk.now) (K.fits desk.now) K.seating script.now.threads workers.old workers.new }
{
    let worker_goes_on = |i: usize, worker: &mut Worker<K::Seat>|
        requires { IsFitScript script.now × (i < length script.now.threads)
            × IsReadyAt (K.start desk.now) (K.fits desk.now) K.seating script.now.threads i worker.now }
        ensures { HasWorkedAt (K.start desk.entry.now) (K.fits desk.entry.now) K.seating script.entry.now.threads i worker.entry.now worker.exit.now }
    { go_on(rt, alloc, desk, worker, script, i, pace) };
    for_each_mut(rt, workers, THREADS, &worker_goes_on);
}

/// Lets the worker of one of the threads go on.
fn go_on<K: Desk, P: Pace, R: Wait>(
    rt: &R,
    alloc: Global,
    desk: &K,
    worker: &mut Worker<K::Seat>,
    script: &Script,
    i: usize,
    pace: &P,
)
    requires fit { IsFitScript script.now }
    requires one { i < length script.now.threads }
    requires ready { IsReadyAt (K.start desk.now) (K.fits desk.now) K.seating script.now.threads i worker.old }
    ensures { HasWorkedAt (K.start desk.now) (K.fits desk.now) K.seating script.now.threads i worker.old worker.new }
{
    let todo = &script.threads.as_slice()[i];
    let Reach { at, end } = walk(
        rt,
        alloc,
        desk,
        &mut worker.seat,
        todo,
        worker.at as usize,
        pace,
    );
    worker.at = at as u32;
    worker.end = end_after(end);
}

/// Whether a worker goes on whose walk has ended so.
fn end_after(end: Result<(), Stop>) -> WorkEnd
    ensures { result ≡ work_end end }
{
    match end {
        Ok(()) | Err(Stop::Waits) => WorkEnd::Going,
        Err(Stop::Disk) => WorkEnd::Disk,
        Err(Stop::NoMemory) => WorkEnd::NoMemory,
    }
}

/// Whether all workers go on; `Disk` before `NoMemory`.
fn end_of<S>(workers: &[Worker<S>]) -> WorkEnd
    ensures { IsEndOf workers.now result }
{
    let mut end = WorkEnd::Going;
    for worker in workers {
        match worker.end {
            WorkEnd::Going => {}
            WorkEnd::Disk => return WorkEnd::Disk,
            WorkEnd::NoMemory => end = WorkEnd::NoMemory,
        }
    }
    end
}

/// How many lines threads have.
fn line_count(threads: &[Todo]) -> u64
    requires { sum_by (λ todo. length todo.lines) threads.now < 2 ^ 64 }
    ensures { result ≡ sum_by (λ todo. length todo.lines) threads.now }
{
    let mut lines = 0;
    for todo in threads {
        lines += todo.lines.as_slice().len() as u64;
    }
    lines
}

/// How many of them are passed.
fn passed<S>(workers: &[Worker<S>]) -> u64
    requires few { length workers.now ≤ 8 }
    ensures { result ≡ sum_by (λ worker. worker.at) workers.now }
{
    workers.iter().map(|worker| u64::from(worker.at)).sum()
}
