// The lines of one thread, passed in order as far as they go.
ghost use Rattle.std.specs.Prelude.{◌≡◌, ◌≤◌, IsTrue, length};
ghost use Rattle.std.specs.List.{list_all};
ghost use Rattle.px_event.specs.Fit.{is_fit_entry};
ghost use Rattle.px_exec.specs.Answers.{entry_of};
ghost use Rattle.px_script.specs.Order.{thread_entries};
ghost use Rattle.px_desk.specs.Seating.{HasMade};
ghost use Rattle.px_crew.specs.Seat.{board_of, HasGoneOn};
ghost use Rattle.px_crew.specs.Walk.{IsFitLine, Passes, Walked};

use crate::seat::{holds, post};
use px_desk::Desk;
use px_event::Event;
use px_exec::PostFault;
use px_script::{Line, Pace, Todo, What};
use std::alloc::Global;
use std::sync::Wait;

/// Why a thread goes no further for now, or for good.
#[derive(Clone, Copy, Debug, PartialEq, Eq)]
pub(crate) enum Stop {
    /// The next line waits for a condition that does not hold.
    Waits,
    /// An append has failed, this thread's or another's.
    Disk,
    /// Memory ran out before the next post.
    NoMemory,
}

/// How far a walk has gone.
#[derive(Clone, Copy)]
pub(crate) struct Reach {
    /// How many of the thread's lines are passed.
    pub(crate) at: usize,
    /// Whether these are all; else why the next one isn't passed.
    pub(crate) end: Result<(), Stop>,
}

/// Passes a thread's lines in order, of which so many are passed before. A line that posts is passed once its event is
/// answered over the history, also where it is refused; a wait is passed where its condition holds.
pub(crate) fn walk<K: Desk, P: Pace, R: Wait>(
    rt: &R,
    alloc: Global,
    desk: &K,
    seat: &mut K::Seat,
    todo: &Todo,
    from: usize,
    pace: &P,
) -> Reach
    requires own { K.fits desk.now seat.old }
    requires made { HasMade (K.seating seat.old) }
    requires fit { IsTrue (list_all is_fit_entry (thread_entries todo.now)) }
    requires within { from ≤ length todo.now.lines }
    ensures walked { Walked todo.now from (board_of (K.start desk.now) (K.seating seat.old))
        (board_of (K.start desk.now) (K.seating seat.new)) result }
    ensures own { K.fits desk.now seat.new }
    ensures on { HasGoneOn (K.seating seat.old) (K.seating seat.new) }
{
    let lines = todo.lines.as_slice();
    for at in from..lines.len() {
        if let Err(stop) = pass(rt, alloc, desk, seat, todo.thread, &lines[at], pace) {
            return Reach { at, end: Err(stop) };
        }
    }
    Reach {
        at: lines.len(),
        end: Ok(()),
    }
}

/// Passes one line, or stops at it.
fn pass<K: Desk, P: Pace, R: Wait>(
    rt: &R,
    alloc: Global,
    desk: &K,
    seat: &mut K::Seat,
    thread: u8,
    line: &Line,
    pace: &P,
) -> Result<(), Stop>
    requires own { K.fits desk.now seat.old }
    requires made { HasMade (K.seating seat.old) }
    requires fit { IsFitLine thread line.now }
    ensures passes { Passes thread line.now (board_of (K.start desk.now) (K.seating seat.old))
        (board_of (K.start desk.now) (K.seating seat.new)) result }
    ensures own { K.fits desk.now seat.new }
    ensures on { HasGoneOn (K.seating seat.old) (K.seating seat.new) }
{
    match &line.what {
        What::Post(event) => {
            pace.before(thread, line.number);
            match post(rt, alloc, desk, seat, thread, line.number, event) {
                Ok(_) => Ok(()),
                // Refused over the history, and answered so.
                Err(PostFault::PlanFinished | PostFault::Runaway) => Ok(()),
                Err(PostFault::Full { .. }) => Ok(()),
                Err(PostFault::DiskFault | PostFault::Closed { .. }) => Err(Stop::Disk),
                Err(PostFault::NoMemory) => Err(Stop::NoMemory),
            }
        }
        What::Wait(cond) if holds(rt, desk, seat, cond) => Ok(()),
        What::Wait(_) => Err(Stop::Waits),
    }
}
