// What an accepted post is told.
use px_sem::Standing;

/// The event is the last of the history, and stands in the journal.
#[derive(Clone, Copy, PartialEq, Eq)]
pub struct Receipt {
    /// Its place in the history, from 1.
    pub position: u32,
    /// How the plan stands after it.
    pub standing: Standing,
}
