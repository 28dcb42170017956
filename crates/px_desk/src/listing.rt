// An entry of the list of a desk. Contracts alone see it.
use px_event::Entry;
use px_sem::LogEntry;

/// What the list of a desk has of a post.
#[derive(Drop)]
pub enum Listing {
    /// It was answered over the history, accepted or refused.
    Answered(LogEntry),
    /// Its append failed, when the disk had counted so many faults. It is the last of the list.
    Failed { entry: Entry, faults: u64 },
}
