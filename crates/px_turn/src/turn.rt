// The lock.
ghost use Rattle.std.specs.Prelude.{◌≡◌, ◌≢◌, ◌%◌, ◌^◌, ◌<◌, ◌≤◌, ℕ, [], ◌∷◌, ◌++◌, length, true, false};
ghost use Rattle.std.specs.Prelude.{Some, None, IfOk, IfErr};
ghost use Rattle.px_turn.specs.Histories.{IsFront, items};
ghost use Rattle.px_turn.specs.Views.{newcomer, entered, with_turn, without_turn, with_entry, with_known};
ghost use Rattle.px_turn.specs.Views.{split_once_more, split_off, joined, GoesOn};
ghost use Rattle.px_turn.specs.Steps.{IsShown};
ghost use Rattle.px_turn.specs.Seats.{view, IsSeatOf, IsOut, HasTurn, IsWhole};

use crate::listed::Listed;
use crate::rule::{Board, COUNT, SERVING, SLOT, TICKET};
use crate::steps::{CallNext, Compare, Cut, Look, LookAtCount, Mark, TakeIn, TakeTicket};
use crate::view::View;
use atomic_table::Table;
use std::alloc::{AllocFailed, Global};
use std::marker::Model;
use std::snapshot::Snapshot;
use std::sync::Wait;
use std::thread::{Parker, yield_now};
use std::time::Duration;

/// A caller's token. It has no bytes.
pub type Seat<T> = atomic_table::Seat<Option<T>, View<T, <T as Listed>::Item>>;

/// A ticket lock round a value that stands for a list of entries. Who has the turn has the value, and gives it back as
/// it leaves. Each call takes seats of this turn, and none but `new` takes memory.
#[derive(Drop)]
pub struct Turn<T: Listed> {
    table: Board<T>,
}

impl<T: Listed> Model for Turn<T> {
    ghost use Rattle.std.specs.Prelude.{◌≡◌};
    ghost use Rattle.atomic_table.specs.Seated.{TableId};

    ghost Value = { TableId };

    ghost view = { λ t. t.table.shared.table_id };

    ghost invariant = { λ t. (t.table.shared.table_id.words ≡ 3) × (t.table.shared.table_id.slots ≡ 1) };
}

/// Memory ran out. The value comes back.
#[derive(Drop)]
pub struct Refused<T> {
    pub value: T,
}

// How often at most a seat naps before it takes a ticket, and how long it naps each time, in milliseconds.
const NAPS: u32 = 16;

const NAP: u64 = 1;

// How often a seat lets other threads go on before it sleeps.
const YIELDS: u32 = 20;

// The value in the one slot of a table that wasn't made.
fn only<T>(mut slots: Vec<Option<T>>) -> T
    requires { (value : T) × (slots.items ≡ Some value ∷ []) }
    ensures { slots.items ≡ Some result ∷ [] }
{
    let value = slots.pop().unwrap().unwrap();
    slots.destroy_empty();
    value
}

impl<T: Listed> Turn<T> {
    /// A lock round a value, and the first seat, which has seen the list of the value.
    pub fn new(alloc: Global, value: T) -> Result<(Turn<T>, Seat<T>), Refused<T>>
        ensures ok { IfOk result (λ made. IsSeatOf made.0 made.1 × IsOut made.1
            × (view made.1 ≡ newcomer T.list value)) }
        ensures err { IfErr result (λ refused. refused.value ≡ value) }
    {
        let count = value.entries();
        let opening = Snapshot::of(&value);
        let mut slots = Vec::new(alloc);
        if let Err(AllocFailed { value }) = slots.push(Some(value)) {
            slots.destroy_empty();
            return Err(Refused {
                value: value.unwrap(),
            });
        }
        match Table::new(alloc, &[0, 0, count], slots, &opening) {
            Ok((table, seat)) => Ok((Turn { table }, seat)),
            Err(refused) => Err(Refused {
                value: only(refused.slots),
            }),
        }
    }

    /// Another seat, split from the first one, at most seven times. It has seen what this one has, and made nothing.
    pub fn split(&self, seat: &mut Seat<T>) -> Seat<T>
        requires own { IsSeatOf self.now seat.old }
        requires out { IsOut seat.old }
        requires first { (view seat.old).number ≡ 0 }
        requires room { (view seat.old).splits < 7 }
        ensures own { IsSeatOf self.now seat.new × IsOut seat.new }
        ensures kept { view seat.new ≡ split_once_more (view seat.old) }
        ensures given { IsSeatOf self.now result × IsOut result
            × (view result ≡ split_off (view seat.old)) }
    {
        self.table.shared.split_seat::<Cut>(seat)
    }

    /// Takes in a seat that isn't the first one: the longer of the two lists that were seen, of which the other is a
    /// front, and a record of what the other made beside the records of both.
    pub fn join(&self, seat: &mut Seat<T>, other: Seat<T>)
        requires own { IsSeatOf self.now seat.old × IsOut seat.old }
        requires other { IsSeatOf self.now other × IsOut other }
        requires later { (view other).number ≢ 0 }
        ensures own { IsSeatOf self.now seat.new × IsOut seat.new }
        ensures both { view seat.new ≡ joined (view seat.old) (view other) }
        ensures seen { IsFront (view seat.old).seen (view seat.new).seen
            × IsFront (view other).seen (view seat.new).seen }
    {
        self.table.shared.join_seat::<TakeIn>(seat, other);
        self.table.shared.load::<Compare>(seat, COUNT);
    }

    /// Waits for the turn and takes the value. Its list begins with all that the seat had seen; the seat has then seen
    /// that list, and has the turn.
    pub fn enter<R: Wait>(&self, rt: &R, seat: &mut Seat<T>) -> T
        requires own { IsSeatOf self.now seat.old }
        requires out { IsOut seat.old }
        ensures own { IsSeatOf self.now seat.new × HasTurn seat.new }
        ensures value { IsShown T.list T.goes_on (view seat.old) (view seat.new).seen result }
        ensures turn { view seat.new ≡ entered (view seat.new).ticket (view seat.new).seen (view seat.old) }
    {
        self.stand_by(rt);
        let ticket = self.table.shared.fetch_add::<TakeTicket>(seat, TICKET, 1);
        self.wait(rt, seat, ticket);
        self.table.shared.exchange(seat, SLOT, None).unwrap()
    }

    // Stands by for a while where others have tickets: a turn that is handed to another thread for each entry costs more
    // than the entry. A seat whose naps are over takes its place behind them.
    fn stand_by<R: Wait>(&self, rt: &R) {
        // Nobody unparks it: `sleep` would ask callers for a clock.
        let parker = Parker::new();
        let nap = Duration::from_millis(NAP);
        for _ in 0..NAPS {
            if self.is_free() {
                return;
            }
            parker.park_timeout(rt, nap);
        }
    }

    // Whether nobody had a ticket just now.
    fn is_free(&self) -> bool {
        self.table.shared.peek(SERVING) == self.table.shared.peek(TICKET)
    }

    // Waits until the seat's ticket is served: lets other threads go on for a while, and then sleeps.
    fn wait<R: Wait>(&self, rt: &R, seat: &mut Seat<T>, ticket: u64)
        requires own { IsSeatOf self.now seat.old }
        requires out { (seat.old.me.1 ≡ []) × ((view seat.old).turn ≡ false) }
        requires ticket { (number : ℕ) × ((view seat.old).ticket ≡ Some number)
            × (number % 2 ^ 64 ≡ ticket) }
        ensures own { IsSeatOf self.now seat.new }
        ensures turn { view seat.new ≡ with_turn (view seat.new).seen (view seat.old) }
        ensures value { (value : T) × (seat.new.me.1 ≡ (0, Some value) ∷ [])
            × IsShown T.list T.goes_on (view seat.old) (view seat.new).seen value }
    {
        let mut yields = 0;
        for _ in rt.forever() {
            let serving = self.table.shared.load::<Look>(seat, SERVING);
            if serving == ticket {
                return;
            }
            if yields < YIELDS {
                yields += 1;
                yield_now();
            } else {
                yields = 0;
                self.table
                    .shared
                    .park(rt, SERVING, (serving % (1 << 32)) as u32);
            }
        }
        unreachable!()
    }

    /// Leaves the turn, with a value that stands for just the entries that the seat has seen.
    pub fn leave(&self, seat: &mut Seat<T>, value: T)
        requires own { IsSeatOf self.now seat.old }
        requires turn { HasTurn seat.old }
        requires value { T.list value ≡ items (view seat.old).seen }
        requires goes_on { GoesOn T.goes_on (view seat.old) value }
        ensures own { IsSeatOf self.now seat.new × IsOut seat.new }
        ensures left { view seat.new ≡ without_turn (view seat.old) }
    {
        self.put_back(seat, value);
        self.call_next(seat);
    }

    /// Leaves the turn, with a value that stands for what the seat has seen and one entry more. The entry is counted,
    /// and the seat has seen and made it.
    pub fn leave_marked(&self, seat: &mut Seat<T>, value: T)
        requires own { IsSeatOf self.now seat.old }
        requires turn { HasTurn seat.old }
        requires value { (item : T.Item) × (T.list value ≡ items (view seat.old).seen ++ item ∷ []) }
        requires few { length (T.list value) < 2 ^ 63 }
        requires goes_on { GoesOn T.goes_on (view seat.old) value }
        ensures own { IsSeatOf self.now seat.new × IsOut seat.new }
        ensures marked { (item : T.Item) × (T.list value ≡ items (view seat.old).seen ++ item ∷ [])
            × (view seat.new ≡ without_turn (with_entry item (view seat.old))) }
    {
        self.put_back(seat, value);
        self.table.shared.fetch_add::<Mark>(seat, COUNT, 1);
        self.call_next(seat);
    }

    // Puts the value into the slot, which the seat still has.
    fn put_back(&self, seat: &mut Seat<T>, value: T)
        requires own { IsSeatOf self.now seat.old }
        requires turn { seat.old.me.1 ≡ (0, None) ∷ [] }
        ensures own { (seat.new.table_id ≡ seat.old.table_id)
            × (seat.new.me ≡ (view seat.old, (0, Some value) ∷ [])) }
    {
        match self.table.shared.exchange(seat, SLOT, Some(value)) {
            None => {}
            Some(_) => unreachable!(),
        }
    }

    // Gives the slot back and calls the next. A seat takes its ticket before it looks which is served, so one whose
    // ticket isn't seen here finds it served; and one that sleeps does so on a number that was raised before the wake.
    fn call_next(&self, seat: &mut Seat<T>)
        requires own { IsSeatOf self.now seat.old }
        requires turn { (view seat.old).turn ≡ true }
        requires value { (value : T) × (seat.old.me.1 ≡ (0, Some value) ∷ [])
            × (T.list value ≡ items (view seat.old).seen) × GoesOn T.goes_on (view seat.old) value }
        ensures own { IsSeatOf self.now seat.new × IsOut seat.new }
        ensures left { view seat.new ≡ without_turn (view seat.old) }
    {
        let served = self.table.shared.fetch_add::<CallNext>(seat, SERVING, 1);
        if self.table.shared.peek(TICKET) != served.wrapping_add(1) {
            self.table.shared.wake_all(SERVING);
        }
    }

    /// How many entries there are: at least as many as the seat has seen. It waits for nobody.
    pub fn count(&self, seat: &mut Seat<T>) -> u64
        requires own { IsSeatOf self.now seat.old }
        ensures own { IsSeatOf self.now seat.new × (seat.new.me.1 ≡ seat.old.me.1) }
        ensures known { view seat.new ≡ with_known result (view seat.old) }
        ensures more { (length (view seat.old).seen ≤ result) × ((view seat.old).known ≤ result) }
    {
        self.table.shared.load::<LookAtCount>(seat, COUNT)
    }

    /// The value, once the first seat has taken in each seat that was split from it. It waits for nobody.
    pub fn close(self, seat: Seat<T>) -> T
        requires own { IsSeatOf self seat }
        requires out { IsOut seat }
        requires first { (view seat).number ≡ 0 }
        requires all { length (view seat).joined ≡ (view seat).splits }
        ensures { IsWhole T.list T.goes_on (view seat) result }
    {
        let mut closed = self.table.close_with(seat);
        let value = closed.take(SLOT);
        closed.free();
        value.unwrap()
    }
}
