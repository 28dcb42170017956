// What a thread's line asks of a desk, through the thread's seat: to answer its event, or whether its condition holds.
ghost use Rattle.std.specs.Prelude.{IsTrue, IsFalse};
ghost use Rattle.px_event.specs.Fit.{is_fit_entry};
ghost use Rattle.px_exec.specs.Answers.{entry_of};
ghost use Rattle.px_sem.specs.Asking.{IsMetBehind, IsUnmetBehind};
ghost use Rattle.px_desk.specs.Seating.{HasMade};
ghost use Rattle.px_crew.specs.Board.{history_on, IsLooked, Posts};
ghost use Rattle.px_crew.specs.Seat.{board_of, HasGoneOn};

use px_desk::Desk;
use px_event::{Cond, Event};
use px_exec::{PostFault, Receipt};
use std::alloc::Global;
use std::sync::Wait;

/// Posts an event for a line of a thread, from 1 to 8.
pub(crate) fn post<K: Desk, R: Wait>(
    rt: &R,
    alloc: Global,
    desk: &K,
    seat: &mut K::Seat,
    thread: u8,
    line: u32,
    event: &Event,
) -> Result<Receipt, PostFault>
    requires own { K.fits desk.now seat.old }
    requires made { HasMade (K.seating seat.old) }
    requires fit { IsTrue (is_fit_entry (entry_of thread line event.now)) }
    ensures posts { Posts (board_of (K.start desk.now) (K.seating seat.old)) (board_of (K.start desk.now) (K.seating seat.new))
        (entry_of thread line event.now) result }
    ensures own { K.fits desk.now seat.new }
    ensures on { HasGoneOn (K.seating seat.old) (K.seating seat.new) }
{
    desk.post(rt, alloc, seat, thread, line, event)
}

/// Whether a condition holds behind the history.
pub(crate) fn holds<K: Desk, R: Wait>(rt: &R, desk: &K, seat: &mut K::Seat, cond: &Cond) -> bool
    requires own { K.fits desk.now seat.old }
    requires made { HasMade (K.seating seat.old) }
    ensures looked { IsLooked (board_of (K.start desk.now) (K.seating seat.old)) (board_of (K.start desk.now) (K.seating seat.new)) }
    ensures met { IsTrue result → IsMetBehind (K.start desk.now).plan
        (history_on (board_of (K.start desk.now) (K.seating seat.new))) cond.now }
    ensures unmet { IsFalse result → IsUnmetBehind (K.start desk.now).plan
        (history_on (board_of (K.start desk.now) (K.seating seat.new))) cond.now }
    ensures own { K.fits desk.now seat.new }
    ensures on { HasGoneOn (K.seating seat.old) (K.seating seat.new) }
{
    desk.holds(rt, seat, cond)
}
