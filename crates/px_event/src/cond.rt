// What a script waits for.
use px_value::{NodeState, Path};

/// What a thread waits for before its next line.
#[derive(Drop, PartialEq, Eq)]
pub enum Cond {
    /// The node has this state.
    State { node: Path, state: NodeState },
    /// The history has at least this many events.
    Events { least: u32 },
}
