// What is called before each post.

/// Called by a worker directly before each post, on its own thread. It serves tests, which hold a thread up by it.
pub trait Pace: Sync {
    /// The thread, from 1 to 8, and the number of the line that is posted next.
    fn before(&self, thread: u8, line: u32);
}

/// Returns at once.
#[derive(Clone, Copy)]
pub struct NoPace;

impl Pace for NoPace {
    fn before(&self, _thread: u8, _line: u32) {}
}
