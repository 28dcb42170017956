// What a thread asks of a desk.
ghost use Rattle.std.specs.Prelude.{IsTrue, IsFalse};
ghost use Rattle.px_event.specs.Fit.{is_fit_entry};
ghost use Rattle.px_exec.specs.Answers.{entry_of};
ghost use Rattle.px_sem.specs.Asking.{IsMetBehind, IsUnmetBehind};
ghost use Rattle.px_turn.specs.Histories.{items};
ghost use Rattle.px_desk.specs.Listing.{Start, history_on, IsLegalList, Answers};
ghost use Rattle.px_desk.specs.Seating.{Seating, IsLooked, Adds, HasMade, Counts};

use px_event::{Cond, Event};
use px_exec::{PostFault, Receipt};
use std::alloc::Global;
use std::sync::Wait;

/// Where threads post events, each through a seat. There is one list of all posts, and each call finds it somewhere on its
/// way: it begins with all that the seat had seen, and the seat has then seen it. Each call needs a seat of this desk.
pub trait Desk: Sync {
    /// A thread's share of the desk.
    type Seat: Send;

    /// With what the desk was opened.
    ghost start: { Self → Start };

    /// The seat is one of this desk, and hasn't got the turn.
    ghost fits: { Self → Self.Seat → Type 0 };

    /// What the seat knows.
    ghost seating: { Self.Seat → Seating };

    /// Posts an event for a line, at least 1, of a thread, from 1 to 8.
    ///
    /// The answers are those of `Exec::post`, in its order, over the history at that point. After `Ok`, `PlanFinished`,
    /// `Full`, `Runaway` and `DiskFault` the list ends with this post, and the seat has made it and nothing else. After
    /// `Closed` the list has a failed append with that count, which an earlier post met; after `NoMemory` it has none. With
    /// both the seat has made nothing.
    fn post<R: Wait>(
        &self,
        rt: &R,
        alloc: Global,
        seat: &mut Self::Seat,
        thread: u8,
        line: u32,
        event: &Event,
    ) -> Result<Receipt, PostFault>
        requires own { fits self.now seat.old }
        requires fit { IsTrue (is_fit_entry (entry_of thread line event.now)) }
        ensures own { fits self.now seat.new }
        ensures answers { Answers (start self.now) (Adds (seating seat.old) (seating seat.new))
            (IsLooked (seating seat.old) (seating seat.new)) (items (seating seat.new).seen)
            (entry_of thread line event.now) result }
        ensures legal { IsLegalList (start self.now) (items (seating seat.new).seen) }
        ensures made { HasMade (seating seat.new) };

    /// Whether a condition holds behind the history: the node is in the state, or the history has at least so many events.
    fn holds<R: Wait>(&self, rt: &R, seat: &mut Self::Seat, cond: &Cond) -> bool
        requires own { fits self.now seat.old }
        ensures own { fits self.now seat.new }
        ensures looked { IsLooked (seating seat.old) (seating seat.new) }
        ensures met { IsTrue result → IsMetBehind (start self.now).plan
            (history_on (start self.now) (items (seating seat.new).seen)) cond.now }
        ensures unmet { IsFalse result → IsUnmetBehind (start self.now).plan
            (history_on (start self.now) (items (seating seat.new).seen)) cond.now }
        ensures legal { IsLegalList (start self.now) (items (seating seat.new).seen) }
        ensures made { HasMade (seating seat.new) };

    /// How many entries the list has at some moment of the call: at least as many as the seat had seen. It waits for nobody.
    fn count(&self, seat: &mut Self::Seat) -> u64
        requires own { fits self.now seat.old }
        ensures own { fits self.now seat.new }
        ensures counts { Counts (seating seat.old) (seating seat.new) result };
}
