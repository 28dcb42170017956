// Which of the moves with an effect a move is.
ghost use Rattle.std.specs.Prelude.{◌≡◌};
ghost use Rattle.px_sem.specs.Effects as sem;
ghost use Rattle.px_micro.specs.Doing.{kind_data};

use px_value::NodeState::{self, Executing, Failing, Finished, Inactive, IterationEnded, Waiting};

/// Which of the moves with an effect it is.
#[derive(Clone, Copy, PartialEq, Eq)]
pub enum MoveKind {
    /// INACTIVE to WAITING
    Initializes,
    /// ITERATION_ENDED to WAITING, FINISHED to INACTIVE
    Resets,
    /// WAITING to EXECUTING
    Starts,
    /// to FAILING
    Fails,
    Other,
}

/// The kind of a move from one state to another.
pub fn move_kind(from: NodeState, to: NodeState) -> MoveKind
    ensures { kind_data result ≡ sem.move_kind from to }
{
    match (from, to) {
        (Inactive, Waiting) => MoveKind::Initializes,
        (IterationEnded, Waiting) | (Finished, Inactive) => MoveKind::Resets,
        (Waiting, Executing) => MoveKind::Starts,
        (_, Failing) => MoveKind::Fails,
        _ => MoveKind::Other,
    }
}
