// The desk over an executive.
ghost use Rattle.std.specs.Prelude.{◌≡◌, ◌≤◌, ◌+◌, [], map, IfOk, IfErr, IsTrue, IsFalse};
ghost use Rattle.std.specs.List.{All, range_with_len};
ghost use Rattle.px_event.specs.Fit.{is_fit_entry};
ghost use Rattle.px_exec.specs.Answers.{entry_of};
ghost use Rattle.px_sem.specs.Asking.{IsMetBehind, IsUnmetBehind};
ghost use Rattle.px_turn.specs.Histories.{items};
ghost use Rattle.px_turn.specs.Seats.{view};
ghost use Rattle.px_desk.specs.Listing.{listing, start_of, history_on, IsLegalList, Answers};
ghost use Rattle.px_desk.specs.Seating.{newcomer, IsLooked, Adds, HasMade, Counts, AreAll, IsOneHistory};

use crate::desk::Desk;
use crate::kept::{Kept, is_listed};
use crate::seats::{deal, gather};
use px_event::{Cond, Event};
use px_exec::{Exec, PostFault, Receipt};
use px_ports::Disk;
use px_sem::Stepper;
use px_turn::Turn;
use std::alloc::Global;
use std::snapshot::Snapshot;
use std::sync::Wait;

/// A thread's share of a desk over an executive. It has no bytes.
pub type Seat<S, D> = px_turn::Seat<Kept<S, D>>;

/// A desk over an executive: who has the turn posts to it.
#[derive(Drop)]
pub struct EventDesk<S: Stepper, D: Disk> {
    turn: Turn<Kept<S, D>>,
    /// With what it was opened. Snapshots have no bytes: contracts alone see them.
    opened: Snapshot<Kept<S, D>>,
    /// How many seats it has.
    seats: Snapshot<u8>,
}

/// Memory ran out. The executive comes back.
#[derive(Drop)]
pub struct OpenRefused<S: Stepper, D: Disk> {
    pub exec: Exec<S, D>,
}

impl<S: Stepper, D: Disk> EventDesk<S, D> {
    ghost use Rattle.px_desk.specs.EventDesk.{seating, opened_with, count_of, IsSeatOf};

    /// A desk with so many seats, from 1 to 8, in the order of their numbers from 0 on. Each has seen the list of the
    /// executive and made nothing.
    ///
    /// `OpenRefused` means want of memory.
    pub fn open(
        alloc: Global,
        exec: Exec<S, D>,
        seats: u8,
    ) -> Result<(EventDesk<S, D>, Vec<Seat<S, D>>), OpenRefused<S, D>>
        requires least { 1 ≤ seats }
        requires most { seats ≤ 8 }
        ensures desk { IfOk result (λ made. (opened_with made.0 ≡ exec) × (count_of made.0 ≡ seats)) }
        ensures own { IfOk result (λ made. All (IsSeatOf made.0) made.1.items) }
        ensures seats { IfOk result
            (λ made. map seating made.1.items ≡ map (newcomer (listing exec)) (range_with_len 0 seats)) }
        ensures all { IfOk result
            (λ made. AreAll (count_of made.0) (map (λ seat. (seating seat).number) made.1.items)) }
        ensures legal { IfOk result (λ made. IsLegalList (start_of S.Stepper exec.opening) (listing exec)) }
        ensures refused { IfErr result (λ refused. refused.exec ≡ exec) }
    {
        let Ok(room) = Vec::with_capacity(alloc, usize::from(seats)) else {
            return Err(OpenRefused { exec });
        };
        let kept = Kept::new(alloc, exec)?;
        kept.keeps();
        let opened = Snapshot::of(&kept);
        match Turn::new(alloc, kept) {
            Ok((turn, first)) => {
                let list = deal(&turn, first, room, seats);
                let desk = EventDesk {
                    turn,
                    opened,
                    seats: Snapshot::of(&seats),
                };
                Ok((desk, list))
            }
            Err(refused) => Err(OpenRefused {
                exec: refused.value.into_exec(),
            }),
        }
    }

    /// The executive, once all seats of the desk are there, each once and the first one at the front. Its list begins with
    /// what each seat had seen, and has of each just the entries that it made. It waits for nobody.
    pub fn close(self, seats: Vec<Seat<S, D>>) -> Exec<S, D>
        requires own { All (IsSeatOf self) seats.items }
        requires all { AreAll (count_of self) (map (λ seat. (seating seat).number) seats.items) }
        ensures whole { IsOneHistory (listing (opened_with self)) (map seating seats.items) (listing result) }
        ensures opening { result.opening ≡ (opened_with self).opening }
    {
        let EventDesk {
            turn,
            opened: _,
            seats: _,
        } = self;
        let mut others = seats;
        let first = others.remove(0);
        let first = gather(&turn, first, others);
        turn.close(first).into_exec()
    }
}

impl<S: Stepper + Send, D: Disk + Send> Desk for EventDesk<S, D> {
    ghost use Rattle.px_desk.specs.EventDesk.{seating, opened_with, IsSeatOf};

    type Seat = Seat<S, D>;

    ghost start = { λ desk. start_of S.Stepper (opened_with desk).opening };

    ghost fits = { IsSeatOf };

    ghost seating = { seating };

    fn post<R: Wait>(
        &self,
        rt: &R,
        alloc: Global,
        seat: &mut Seat<S, D>,
        thread: u8,
        line: u32,
        event: &Event,
    ) -> Result<Receipt, PostFault> {
        let mut kept = self.turn.enter(rt, seat);
        let answer = kept.post(alloc, thread, line, event);
        kept.keeps();
        if !is_listed(answer) {
            self.turn.leave(seat, kept);
            return answer;
        }
        self.turn.leave_marked(seat, kept);
        answer
    }

    fn holds<R: Wait>(&self, rt: &R, seat: &mut Seat<S, D>, cond: &Cond) -> bool {
        let kept = self.turn.enter(rt, seat);
        kept.keeps();
        let holds = kept.holds(cond);
        self.turn.leave(seat, kept);
        holds
    }

    fn count(&self, seat: &mut Seat<S, D>) -> u64 {
        self.turn.count(seat)
    }
}
