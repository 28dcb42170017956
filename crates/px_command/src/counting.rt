// Where an event counts: a row for each kind of event.
ghost use Rattle.std.specs.Prelude.{◌≡◌};
ghost use Rattle.px_flat.specs.NumberedData.{body_data};
ghost use Rattle.px_command.specs.Counting.{handle_counts, return_counts, abort_done_counts, acknowledgement_counts};

use px_flat::{Act, NumberedBody};
use px_value::NodeState;

/// A handle counts where a command is under way at a node that is at work.
pub(crate) fn handle_counts(state: NodeState, act: &Act) -> bool
    ensures { result ≡ handle_counts state act.now }
{
    matches!(
        state,
        NodeState::Executing | NodeState::Finishing | NodeState::Failing
    ) && matches!(act, Act::Sent { .. })
}

/// What a command returns counts where its node has not failed.
pub(crate) fn return_counts(state: NodeState) -> bool
    ensures { result ≡ return_counts state }
{
    matches!(state, NodeState::Executing | NodeState::Finishing)
}

/// That an abort is done counts where the node of a command fails.
pub(crate) fn abort_done_counts(state: NodeState, act: &Act) -> bool
    ensures { result ≡ abort_done_counts state act.now }
{
    state == NodeState::Failing && matches!(act, Act::Sent { .. })
}

/// An acknowledgement counts where an update is at work or fails.
pub(crate) fn acknowledgement_counts(state: NodeState, body: &NumberedBody) -> bool
    ensures { result ≡ acknowledgement_counts state (body_data body.now) }
{
    matches!(body, NumberedBody::Update { .. })
        && matches!(state, NodeState::Executing | NodeState::Failing)
}
