// Whole scripts.
use crate::todo::Todo;
use px_event::Names;
use px_value::Series;

/// What the threads do.
#[derive(Drop, PartialEq, Eq)]
pub struct Script {
    /// The threads with a line, in rising order.
    pub threads: Series<Todo>,
    /// The names of threads, in the order in which they are first named. A thread may have a name and no line.
    pub names: Names,
}
