// What a node has under way.
use px_value::Value;

/// How far the abort of a command has come.
#[derive(Clone, Copy, PartialEq, Eq)]
pub enum Abort {
    NotAsked,
    Sent,
    Done,
}

/// What a node has under way, apart from its handle and its acknowledgement, which are cells.
#[derive(Drop)]
pub enum Act {
    /// Nothing.
    Idle,
    /// An assignment that wrote nothing, since its place is not within the array.
    Unwritten,
    /// An assignment to a scalar, which had this value.
    Scalar(Value),
    /// An assignment to an element of an array, which had this value.
    Element { index: u32, old: Value },
    /// A command, with the index of its result where that was within the array.
    Sent { index: Option<u32>, abort: Abort },
    /// An update.
    Updated,
}
