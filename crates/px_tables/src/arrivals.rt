// Where rows lead.
ghost use Rattle.std.specs.Prelude.{◌≡◌};
ghost use Rattle.px_sem.specs.Table.{to, ended, ended_by, both_kept, by_post};

use px_sem::{Arrival, Guards};
use px_value::{Failure, NodeState, Outcome};

/// To a state in which a node has neither outcome nor failure.
pub(crate) fn to(state: NodeState) -> Arrival
    ensures { result ≡ to state }
{
    Arrival {
        to: state,
        outcome: None,
        failure: None,
    }
}

/// To a state with an outcome that is no failure.
pub(crate) fn ended(state: NodeState, outcome: Outcome) -> Arrival
    ensures { result ≡ ended state outcome }
{
    Arrival {
        to: state,
        outcome: Some(outcome),
        failure: None,
    }
}

/// To a state with an outcome and the failure that it came of.
pub(crate) fn ended_by(state: NodeState, outcome: Outcome, failure: Failure) -> Arrival
    ensures { result ≡ ended_by state outcome failure }
{
    Arrival {
        to: state,
        outcome: Some(outcome),
        failure: Some(failure),
    }
}

/// To a state with the outcome and the failure of before.
pub(crate) fn both_kept(state: NodeState, guards: &Guards) -> Arrival
    ensures { result ≡ both_kept state guards.now }
{
    Arrival {
        to: state,
        outcome: guards.outcome,
        failure: guards.failure,
    }
}

/// To a state with SUCCESS where the Post condition is true, and else with its failure.
pub(crate) fn by_post(state: NodeState, guards: &Guards) -> Arrival
    ensures { result ≡ by_post state guards.now }
{
    if guards.post_true {
        ended(state, Outcome::Success)
    } else {
        ended_by(state, Outcome::Failure, Failure::PostConditionFailed)
    }
}
