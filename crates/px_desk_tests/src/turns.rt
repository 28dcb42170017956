// Threads that really take turns.
ghost use Rattle.std.specs.Prelude.{◌≡◌, ◌+◌, ◌-◌, ◌<◌, ◌≤◌, [], length, IfOk};
ghost use Rattle.std.specs.Thread.{IsSync};
ghost use Rattle.px_turn.specs.Seats.{view, IsSeatOf, IsOut};

use px_turn::{Listed, Seat, Turn};
use std::alloc::{AllocError, Global};
use std::sync::Wait;
use std::test::Fail;
use std::thread;
use std::thread::Threads;

// How many entries each caller makes.
const EACH: u64 = 1_000;

// A list of numbers.
#[derive(Drop)]
struct Book {
    numbers: Vec<u64>,
}

impl Listed for Book {
    type Item = u64;

    ghost list = { λ book. book.numbers.items };

    ghost goes_on = { λ book later. Unit {0} };

    fn entries(&self) -> u64 {
        self.numbers.len() as u64
    }

    ghost stays = { λ book. tt };
}

fn open(alloc: Global) -> Result<(Turn<Book>, Seat<Book>), AllocError>
    ensures { IfOk result (λ made. IsSeatOf made.0 made.1 × IsOut made.1 × ((view made.1).number ≡ 0)
        × ((view made.1).splits ≡ 0) × ((view made.1).joined ≡ [])) }
{
    let book = Book {
        numbers: Vec::new(alloc),
    };
    match Turn::new(alloc, book) {
        Ok(made) => Ok(made),
        Err(_) => Err(AllocError),
    }
}

// Adds a number, in a turn of its own. False where memory ran out.
fn add<R: Wait>(rt: &R, turn: &Turn<Book>, seat: &mut Seat<Book>, number: u64) -> bool
    requires { IsSeatOf turn.now seat.old × IsOut seat.old }
    ensures own { IsSeatOf turn.now seat.new × IsOut seat.new }
    ensures same { ((view seat.new).number ≡ (view seat.old).number)
        × ((view seat.new).splits ≡ (view seat.old).splits) × ((view seat.new).joined ≡ (view seat.old).joined) }
{
    let mut book = turn.enter(rt, seat);
    if book.numbers.push(number).is_err() {
        turn.leave(seat, book);
        return false;
    }
    turn.leave_marked(seat, book);
    true
}

// Adds the numbers of one caller, in rising order.
fn work<R: Wait>(rt: &R, turn: &Turn<Book>, mut seat: Seat<Book>, caller: u64) -> Seat<Book>
    requires { IsSeatOf turn.now seat × IsOut seat }
    ensures own { IsSeatOf turn.now result × IsOut result }
    ensures same { ((view result).number ≡ (view seat).number) × ((view result).splits ≡ (view seat).splits)
        × ((view result).joined ≡ (view seat).joined) }
{
    for entry in 0..EACH {
        add(
            rt,
            turn,
            &mut seat,
            caller.wrapping_mul(EACH).wrapping_add(entry),
        );
    }
    seat
}

// The first seat works as caller 0, and a seat for each other caller that is split from it in a thread of its own.
fn work_in_threads<R: Threads + Wait + Sync>(
    rt: &R,
    turn: &Turn<Book>,
    mut first: Seat<Book>,
    others: u64,
) -> Seat<Book>
    requires own { IsSeatOf turn.now first × IsOut first × ((view first).number ≡ 0) }
    requires room { (view first).splits + others ≤ 7 }
    ensures own { IsSeatOf turn.now result × IsOut result × ((view result).number ≡ 0) }
    ensures each { length (view result).joined + (view first).splits
        ≡ (view result).splits + length (view first).joined }
{
    if others == 0 {
        return work(rt, turn, first, 0);
    }
    let other = turn.split(&mut first);
    let (mut first, other) = thread::join(
        rt,
        || -> Seat<Book>
            requires { IsSync R.row × IsSeatOf turn.now first × IsOut first × ((view first).number ≡ 0)
                × ((view first).splits + (others - 1) ≤ 7) × (0 < others) }
            ensures { IsSeatOf turn.entry.now result × IsOut result × ((view result).number ≡ 0)
                × (length (view result).joined + (view first).splits
                ≡ (view result).splits + length (view first).joined) }
        { work_in_threads(rt, turn, first, others - 1) },
        || work(rt, turn, other, others),
    );
    turn.join(&mut first, other);
    first
}

// Whether each caller's numbers stand in the list in their order, each once, and nothing else does.
fn has_each_once(numbers: &[u64]) -> bool {
    let mut next = [0u64; 8];
    for number in numbers {
        let caller = (number / EACH) as usize;
        if caller >= 8 || next[caller] != number % EACH {
            return false;
        }
        next[caller] += 1;
    }
    next == [EACH; 8]
}

#[test]
fn eight_seats_make_each_entry_once(rt: HostRuntime) -> Result<(), Fail> {
    let (turn, first) = open(rt.alloc())?;
    let first = work_in_threads(&rt, &turn, first, 7);
    let book = turn.close(first);
    assert!(rt; has_each_once(book.numbers.as_slice()));
    Ok(())
}

#[test]
fn another_seat_counts_the_entry(rt: HostRuntime) -> Result<(), Fail> {
    let (turn, mut first) = open(rt.alloc())?;
    let mut other = turn.split(&mut first);
    assert!(rt; turn.count(&mut other) == 0);
    assert!(rt; add(&rt, &turn, &mut first, 7));
    assert!(rt; turn.count(&mut other) == 1);
    turn.join(&mut first, other);
    let book = turn.close(first);
    assert!(rt; book.numbers.as_slice() == [7].as_slice());
    Ok(())
}

#[test]
fn one_seat_takes_the_turn_and_leaves_it(rt: HostRuntime) -> Result<(), Fail> {
    let (turn, mut seat) = open(rt.alloc())?;
    assert!(rt; turn.count(&mut seat) == 0);
    assert!(rt; add(&rt, &turn, &mut seat, 7));
    assert!(rt; turn.count(&mut seat) == 1);
    let book = turn.enter(&rt, &mut seat);
    turn.leave(&mut seat, book);
    assert!(rt; add(&rt, &turn, &mut seat, 9));
    assert!(rt; turn.count(&mut seat) == 2);
    let book = turn.close(seat);
    assert!(rt; book.numbers.as_slice() == [7, 9].as_slice());
    Ok(())
}
