// The end of threads that go no further: the waits at which they stand.
ghost use Rattle.std.specs.Prelude.{◌≡◌, ◌++◌, IfOk, OnOk};
ghost use Rattle.std.specs.Option.{option_to_list};
ghost use Rattle.px_crew.specs.Standstill.{wait_at, waits_of, IsStandstill};
ghost use Rattle.px_crew.specs.Work.{places_of};

use px_event::Cond;
use px_script::{CrewEnd, Stall, Todo, What, Worker};
use px_value::NoMemory;
use std::alloc::Global;

/// What threads come to whose workers go no further.
pub(crate) fn standstill<S>(alloc: Global, threads: &[Todo], workers: &[Worker<S>]) -> CrewEnd
    ensures { IsStandstill threads.now (places_of workers.now) result }
{
    match waits(alloc, threads, workers) {
        Ok(waits) if waits.is_empty() => CrewEnd::Done,
        Ok(waits) => CrewEnd::Stalled { waits },
        Err(_) => CrewEnd::NoMemory,
    }
}

/// The waits at which the workers stand.
fn waits<S>(alloc: Global, threads: &[Todo], workers: &[Worker<S>]) -> Result<Vec<Stall>, NoMemory>
    ensures { IfOk result (λ waits. waits.items ≡ waits_of threads.now (places_of workers.now)) }
{
    let mut waits = Vec::new(alloc);
    for (todo, worker) in threads.iter().zip(workers) {
        push_wait(alloc, &mut waits, todo, worker.at as usize)?;
    }
    Ok(waits)
}

/// Appends the wait at a place of a thread, where its line there is one.
fn push_wait(alloc: Global, waits: &mut Vec<Stall>, todo: &Todo, at: usize) -> Result<(), NoMemory>
    ensures { OnOk result (waits.new.items ≡ waits.old.items ++ option_to_list (wait_at todo.now at)) }
{
    let Some(line) = todo.lines.as_slice().get(at) else {
        return Ok(());
    };
    match &line.what {
        What::Wait(cond) => {
            let cond = copy(alloc, cond)?;
            waits.push(Stall {
                thread: todo.thread,
                line: line.number,
                cond,
            })?;
            Ok(())
        }
        What::Post(_) => Ok(()),
    }
}

/// An equal condition.
fn copy(alloc: Global, cond: &Cond) -> Result<Cond, NoMemory>
    ensures { IfOk result (λ copy. copy ≡ cond.now) }
{
    match cond {
        Cond::State { node, state } => Ok(Cond::State {
            node: node.copy(alloc)?,
            state: *state,
        }),
        Cond::Events { least } => Ok(Cond::Events { least: *least }),
    }
}
