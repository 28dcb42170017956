// What the work of a script's threads comes to.
use crate::stall::Stall;

/// How the threads of a script end.
#[derive(Drop)]
pub enum CrewEnd {
    /// All lines are passed.
    Done,
    /// Each thread that has lines left stands at a wait whose condition does not hold. These are the waits, in order of
    /// thread.
    Stalled { waits: Vec<Stall> },
    /// An append failed, so no event is accepted any more.
    Disk,
    /// Memory ran out.
    NoMemory,
}
