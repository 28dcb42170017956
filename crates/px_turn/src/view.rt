// What a seat knows. No value of these types is made.
use std::collections::LinkedList;

/// An entry of the history, with the number of the seat that made it, or with none where it was there at the opening.
pub struct Stamped<I> {
    pub maker: Option<u64>,
    pub item: I,
}

/// A number of a seat, and the positions in the history of the entries that carry it.
pub struct Record {
    pub number: u64,
    pub made: LinkedList<u64>,
}

/// What a seat knows.
pub struct View<T, I> {
    /// False once the seat was joined into another.
    pub live: bool,
    /// The first seat's is 0, and that of the k-th that was split from it is k.
    pub number: u64,
    /// How often the first seat was split.
    pub splits: u64,
    /// The ticket with which the seat waits, or has the turn.
    pub ticket: Option<u64>,
    /// Whether the seat has the turn.
    pub turn: bool,
    /// A front of the history.
    pub seen: LinkedList<Stamped<I>>,
    /// Another front of it, which the last join told of.
    pub told: LinkedList<Stamped<I>>,
    /// A number of entries that the history had at least.
    pub known: u64,
    /// The positions of the entries that the seat made.
    pub made: LinkedList<u64>,
    /// The records of the seats that were joined into this one.
    pub joined: LinkedList<Record>,
    /// The value at the opening.
    pub opening: Option<T>,
}
