// What a log has of a post.
use px_event::{Entry, Reply};

/// A post with its reply.
#[derive(Drop)]
pub struct LogEntry {
    pub entry: Entry,
    pub reply: Reply,
}
