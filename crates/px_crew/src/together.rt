// The whole work of a script's threads over an executive.
ghost use Rattle.std.specs.Prelude.{◌≡◌, ◌≤◌, ◌<◌, sum_by, length, None, [], IsTrue, IsFalse};
ghost use Rattle.px_exec.specs.Executive.{plan_of};
ghost use Rattle.px_script.specs.Fit.{IsFitScript};
ghost use Rattle.px_crew.specs.Crew.{failed_entry, AreAt, Ends, Comes, IsWaiting, IsOver, Wakes};
ghost use Rattle.px_crew.specs.Standstill.{IsHeld};

use crate::engaging::{engage, release};
use crate::rounds::work;
use px_desk::EventDesk;
use px_exec::Exec;
use px_ports::Disk;
use px_script::{CrewEnd, Pace, Script, Todo, What};
use px_sem::Stepper;
use std::alloc::Global;
use std::sync::Wait;
use std::thread::Threads;

/// What work has left.
#[derive(Drop)]
pub struct Worked<S: Stepper, D: Disk> {
    /// The executive, handed back.
    pub exec: Exec<S, D>,
    /// How the threads ended.
    pub end: CrewEnd,
}

/// Lets the threads of a script work over an executive to which nothing was posted, each on a thread of its own: until all
/// lines are passed, an append fails, memory runs out, or each thread that has lines left stands at a wait that isn't met
/// behind the history of all.
pub fn work_together<S: Stepper + Send, D: Disk + Send, P: Pace, R: Threads + Wait + Sync>(
    rt: &R,
    alloc: Global,
    exec: Exec<S, D>,
    script: &Script,
    pace: &P,
) -> Worked<S, D>
    requires fit { IsFitScript script.now }
    requires open { exec.failed ≡ None }
    requires fresh { exec.log ≡ [] }
    ensures ends { Ends (plan_of S.Stepper result.exec) result.exec.opening.history result.exec.log script.now.threads
        (failed_entry result.exec) result.end }
    ensures opening { result.exec.opening ≡ exec.opening }
{
    let threads = script.threads.as_slice();
    let mut exec = exec;
    if threads.is_empty() {
        return Worked {
            exec,
            end: CrewEnd::Done,
        };
    }
    let Ok(mut places) = vec![in alloc; 0; threads.len()] else {
        return Worked {
            exec,
            end: CrewEnd::NoMemory,
        };
    };
    loop {
        let Worked { exec: after, end } = work_over_desk(
            rt,
            alloc,
            exec,
            script,
            &mut places,
            pace,
        );
        exec = after;
        match end {
            CrewEnd::Stalled { waits } => match wakes(&exec, threads, &places) {
                Some(i) => places[i] += 1,
                None => {
                    return Worked {
                        exec,
                        end: CrewEnd::Stalled { waits },
                    };
                }
            },
            end => return Worked { exec, end },
        }
    }
}

/// Lets the threads work over one desk from their places, which may then be further.
fn work_over_desk<S: Stepper + Send, D: Disk + Send, P: Pace, R: Threads + Wait + Sync>(
    rt: &R,
    alloc: Global,
    exec: Exec<S, D>,
    script: &Script,
    places: &mut [u32],
    pace: &P,
) -> Worked<S, D>
    requires fit { IsFitScript script.now }
    requires some { 0 < length script.now.threads }
    requires open { exec.failed ≡ None }
    requires at { AreAt (plan_of S.Stepper exec) exec.opening.history exec.log script.now.threads places.old }
    ensures comes { Comes (plan_of S.Stepper result.exec) result.exec.opening.history result.exec.log script.now.threads
        places.new (failed_entry result.exec) result.end }
    ensures rise { sum_by (λ place. place) places.old ≤ sum_by (λ place. place) places.new }
    ensures opening { result.exec.opening ≡ exec.opening }
{
    let count = places.len();
    let Ok(room) = Vec::with_capacity(alloc, count) else {
        return Worked {
            exec,
            end: CrewEnd::NoMemory,
        };
    };
    let Ok(rest) = Vec::with_capacity(alloc, count) else {
        return Worked {
            exec,
            end: CrewEnd::NoMemory,
        };
    };
    match EventDesk::open(alloc, exec, count as u8) {
        Ok((desk, seats)) => {
            let mut workers = engage(room, seats, places);
            let end = work(rt, alloc, &desk, workers.as_mut_slice(), script, pace);
            let seats = release(rest, workers, places);
            Worked {
                exec: desk.close(seats),
                end,
            }
        }
        Err(refused) => Worked {
            exec: refused.exec,
            end: CrewEnd::NoMemory,
        },
    }
}

/// The first thread whose next line is a wait that is met by now.
fn wakes<S: Stepper, D: Disk>(exec: &Exec<S, D>, threads: &[Todo], places: &[u32]) -> Option<usize>
    requires { length places.now ≡ length threads.now }
    ensures { Wakes (plan_of S.Stepper exec.now) exec.now.opening.history exec.now.log threads.now places.now result }
{
    for (i, todo) in threads.iter().enumerate() {
        if is_over(exec, todo, places[i] as usize) {
            return Some(i);
        }
    }
    None
}

/// Whether the line at a place is a wait that is met by now.
fn is_over<S: Stepper, D: Disk>(exec: &Exec<S, D>, todo: &Todo, at: usize) -> bool
    ensures over { IsTrue result → IsOver (plan_of S.Stepper exec.now) exec.now.opening.history exec.now.log todo.now at }
    ensures held { IsFalse result → IsWaiting todo.now at
        → IsHeld (plan_of S.Stepper exec.now) exec.now.opening.history exec.now.log todo.now at }
{
    exec.keeps();
    let Some(line) = todo.lines.as_slice().get(at) else {
        return false;
    };
    match &line.what {
        What::Wait(cond) => exec.holds(cond),
        What::Post(_) => false,
    }
}
