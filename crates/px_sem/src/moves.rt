// What one node does in one micro step.
use px_event::Values;
use px_value::{Failure, Name, NodeState, Outcome, Path, Series, Value};

/// What a move does beside the change of state.
#[derive(Drop)]
pub enum Effect {
    /// A variable, or the element of an array at an index from 0, has this value now.
    Wrote {
        owner: Path,
        name: Name,
        index: Option<u32>,
        value: Value,
    },
    /// An assignment that writes nothing.
    NoWrite,
    /// A command is sent with these arguments.
    Sent {
        command: Name,
        args: Values,
    },
    /// A command is asked to abort.
    Aborted {
        command: Name,
    },
    /// An update is sent: as many values as names.
    Updated {
        names: Series<Name>,
        values: Values,
    },
}

/// One node's part of a micro step: the atomic step of the small-step semantics.
#[derive(Drop)]
pub struct Move {
    pub node: Path,
    pub from: NodeState,
    pub to: NodeState,
    /// The outcome and the failure that the node has after the move.
    pub outcome: Option<Outcome>,
    pub failure: Option<Failure>,
    pub effect: Option<Effect>,
}
