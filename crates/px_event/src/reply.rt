// What a post is answered.

/// The answer to an event that was posted to a running plan.
#[derive(Clone, Copy, PartialEq, Eq)]
pub enum Reply {
    /// The event is the last of the history, at this position from 1.
    Accepted { position: u32 },
    /// The plan's root had finished.
    PlanFinished,
    /// The history had as many events as it may have.
    Full,
    /// The plan would not have settled after the event.
    Runaway,
}
