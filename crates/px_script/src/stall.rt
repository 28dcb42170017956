// What stops a thread.
use px_event::Cond;

/// A wait line at which a thread stands, since its condition does not hold.
#[derive(Drop)]
pub struct Stall {
    /// From 1 to 8.
    pub thread: u8,
    /// Its number in the script.
    pub line: u32,
    pub cond: Cond,
}
