// Tests of states and failures.
ghost use Rattle.std.specs.Prelude.{◌≡◌};
ghost use Rattle.px_sem.specs.Guards.{is_true, is_false, is_exit_failure, is_invariant_failure};
ghost use Rattle.px_sem.specs.Guards.{is_waiting, is_executing, is_failing, is_finished};
ghost use Rattle.px_sem.specs.Guards.{is_active, is_past_end, is_at_rest, is_final_handle};
ghost use Rattle.px_flat.specs.Parts.{handle_in};

use px_value::NodeState::{self, Executing, Failing, Finished, Finishing, IterationEnded, Waiting};
use px_value::{Failure, Handle, Value};

/// A truth that is known and holds.
pub fn is_true(truth: Option<bool>) -> bool
    ensures { result ≡ is_true truth }
{
    truth == Some(true)
}

/// A truth that is known and does not hold.
pub fn is_false(truth: Option<bool>) -> bool
    ensures { result ≡ is_false truth }
{
    truth == Some(false)
}

/// WAITING.
pub fn is_waiting(state: NodeState) -> bool
    ensures { result ≡ is_waiting state }
{
    matches!(state, Waiting)
}

/// EXECUTING.
pub fn is_executing(state: NodeState) -> bool
    ensures { result ≡ is_executing state }
{
    matches!(state, Executing)
}

/// FAILING.
pub fn is_failing(state: NodeState) -> bool
    ensures { result ≡ is_failing state }
{
    matches!(state, Failing)
}

/// FINISHED.
pub fn is_finished(state: NodeState) -> bool
    ensures { result ≡ is_finished state }
{
    matches!(state, Finished)
}

/// EXECUTING, FINISHING or FAILING.
pub fn is_active(state: NodeState) -> bool
    ensures { result ≡ is_active state }
{
    matches!(state, Executing | Finishing | Failing)
}

/// FINISHING, ITERATION_ENDED or FINISHED.
pub fn is_past_end(state: NodeState) -> bool
    ensures { result ≡ is_past_end state }
{
    matches!(state, Finishing | IterationEnded | Finished)
}

/// WAITING or FINISHED.
pub fn is_at_rest(state: NodeState) -> bool
    ensures { result ≡ is_at_rest state }
{
    is_waiting(state) || is_finished(state)
}

/// A failure that an Exit leaves, here or above.
pub fn is_exit_failure(failure: Option<Failure>) -> bool
    ensures { result ≡ is_exit_failure failure }
{
    matches!(failure, Some(Failure::Exited | Failure::ParentExited))
}

/// A failure that an Invariant leaves, here or above.
pub fn is_invariant_failure(failure: Option<Failure>) -> bool
    ensures { result ≡ is_invariant_failure failure }
{
    matches!(
        failure,
        Some(Failure::InvariantConditionFailed | Failure::ParentFailed)
    )
}

/// The outside is done with a command.
pub fn is_final_handle(handle: &Value) -> bool
    ensures { result ≡ is_final_handle (handle_in handle.now) }
{
    matches!(
        handle,
        Value::Handle(Handle::CommandSuccess | Handle::CommandFailed | Handle::CommandDenied)
    )
}
