// What one thread has to do.
use crate::line::Line;
use px_value::Series;

/// A thread's lines.
#[derive(Drop, PartialEq, Eq)]
pub struct Todo {
    /// From 1 to 8.
    pub thread: u8,
    /// From 1 to 100,000, by rising number.
    pub lines: Series<Line>,
}
