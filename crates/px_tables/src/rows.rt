// The rows of the transition table, state by state and in their order; the first whose guard holds decides.
ghost use Rattle.std.specs.Prelude.{◌≡◌};
ghost use Rattle.px_sem.specs.Table.{is_from_above, skipped, first_row, dest};
ghost use Rattle.px_sem.specs.Table.{empty_stop_rows, stop_rows, stop_rows_of, end_row, wind_down_rows};
ghost use Rattle.px_sem.specs.Table.{inactive_rows, waiting_rows, executing_rows, finishing_rows, failing_rows};
ghost use Rattle.px_sem.specs.Table.{iteration_ended_rows, finished_rows};

use crate::arrivals::{both_kept, by_post, ended, ended_by, to};
use px_core::Kind;
use px_sem::{Arrival, Guards};
use px_value::NodeState::{
    self, Executing, Failing, Finished, Finishing, Inactive, IterationEnded, Waiting,
};
use px_value::{Failure, Outcome};

/// Where a node goes: the first row of its kind and state whose guard holds, or None where none holds and it stays
/// (PLEXIL reference manual, "Node State Transition Diagrams").
pub fn dest(kind: Kind, state: NodeState, guards: &Guards) -> Option<Arrival>
    ensures { result ≡ dest kind state guards.now }
{
    match state {
        Inactive => from_inactive(guards),
        Waiting => from_waiting(guards),
        Executing => from_executing(kind, guards),
        Finishing => from_finishing(kind, guards),
        Failing => from_failing(guards),
        IterationEnded => from_iteration_ended(guards),
        Finished => from_finished(guards),
    }
}

/// A guard, and where its row leads.
type Row = (bool, Arrival);

fn first_row(rows: &[Row]) -> Option<Arrival>
    ensures { result ≡ first_row rows.now }
{
    for (holds, arrival) in rows {
        if *holds {
            return Some(*arrival);
        }
    }
    None
}

fn from_inactive(g: &Guards) -> Option<Arrival>
    ensures { result ≡ first_row (inactive_rows g.now) }
{
    first_row(&[
        (g.parent_finished, skipped()),
        (g.parent_executing, to(Waiting)),
    ])
}

fn from_waiting(g: &Guards) -> Option<Arrival>
    ensures { result ≡ first_row (waiting_rows g.now) }
{
    first_row(&[
        (g.ancestor_exit, skipped()),
        (g.exit_true, skipped()),
        (g.ancestor_invariant, skipped()),
        (g.ancestor_end, skipped()),
        (g.skip_true, skipped()),
        (
            g.start_true && !g.pre_true,
            ended_by(
                IterationEnded,
                Outcome::Failure,
                Failure::PreConditionFailed,
            ),
        ),
        (g.start_true, to(Executing)),
    ])
}

fn from_executing(kind: Kind, g: &Guards) -> Option<Arrival>
    ensures { result ≡ first_row (executing_rows kind g.now) }
{
    stop_of(kind, g).or(first_row(&[end_row(kind, g)]))
}

fn from_finishing(kind: Kind, g: &Guards) -> Option<Arrival>
    ensures { result ≡ first_row (finishing_rows kind g.now) }
{
    stop(g).or(wind_down(kind, g))
}

fn stop_of(kind: Kind, g: &Guards) -> Option<Arrival>
    ensures { result ≡ first_row (stop_rows_of kind g.now) }
{
    match kind {
        Kind::Empty => stop_empty(g),
        Kind::List | Kind::Assignment | Kind::Command | Kind::Update => stop(g),
    }
}

// An Empty node has nothing to wind down, so it leaves EXECUTING at once.
fn stop_empty(g: &Guards) -> Option<Arrival>
    ensures { result ≡ first_row (empty_stop_rows g.now) }
{
    first_row(&[
        (
            g.ancestor_exit,
            ended_by(Finished, Outcome::Interrupted, Failure::ParentExited),
        ),
        (
            g.exit_true,
            ended_by(IterationEnded, Outcome::Interrupted, Failure::Exited),
        ),
        (
            g.ancestor_invariant,
            ended_by(Finished, Outcome::Failure, Failure::ParentFailed),
        ),
        (
            g.invariant_false,
            ended_by(
                IterationEnded,
                Outcome::Failure,
                Failure::InvariantConditionFailed,
            ),
        ),
    ])
}

fn stop(g: &Guards) -> Option<Arrival>
    ensures { result ≡ first_row (stop_rows g.now) }
{
    first_row(&[
        (
            g.ancestor_exit,
            ended_by(Failing, Outcome::Interrupted, Failure::ParentExited),
        ),
        (
            g.exit_true,
            ended_by(Failing, Outcome::Interrupted, Failure::Exited),
        ),
        (
            g.ancestor_invariant,
            ended_by(Failing, Outcome::Failure, Failure::ParentFailed),
        ),
        (
            g.invariant_false,
            ended_by(Failing, Outcome::Failure, Failure::InvariantConditionFailed),
        ),
    ])
}

// The end of a node's work.
fn end_row(kind: Kind, g: &Guards) -> Row
    ensures { result ≡ end_row kind g.now }
{
    let arrival = match kind {
        Kind::List => by_post(Finishing, g),
        Kind::Command => to(Finishing),
        Kind::Empty | Kind::Assignment | Kind::Update => by_post(IterationEnded, g),
    };
    (g.end_true, arrival)
}

// The end of winding down, of the kinds that have one.
fn wind_down(kind: Kind, g: &Guards) -> Option<Arrival>
    ensures { result ≡ first_row (wind_down_rows kind g.now) }
{
    match kind {
        Kind::List => first_row(&[(g.children_rest, both_kept(IterationEnded, g))]),
        Kind::Command => first_row(&[(g.handle_known, by_post(IterationEnded, g))]),
        Kind::Empty | Kind::Assignment | Kind::Update => None,
    }
}

fn from_failing(g: &Guards) -> Option<Arrival>
    ensures { result ≡ first_row (failing_rows g.now) }
{
    first_row(&[
        (g.ready && is_from_above(g.failure), both_kept(Finished, g)),
        (g.ready, both_kept(IterationEnded, g)),
    ])
}

fn from_iteration_ended(g: &Guards) -> Option<Arrival>
    ensures { result ≡ first_row (iteration_ended_rows g.now) }
{
    first_row(&[
        (
            g.ancestor_exit,
            ended_by(Finished, Outcome::Interrupted, Failure::ParentExited),
        ),
        (
            g.ancestor_invariant,
            ended_by(Finished, Outcome::Failure, Failure::ParentFailed),
        ),
        (g.ancestor_end, both_kept(Finished, g)),
        (g.repeat_false, both_kept(Finished, g)),
        (g.repeat_true, to(Waiting)),
    ])
}

fn from_finished(g: &Guards) -> Option<Arrival>
    ensures { result ≡ first_row (finished_rows g.now) }
{
    first_row(&[(g.parent_waiting, to(Inactive))])
}

fn skipped() -> Arrival
    ensures { result ≡ skipped }
{
    ended(Finished, Outcome::Skipped)
}

fn is_from_above(failure: Option<Failure>) -> bool
    ensures { result ≡ is_from_above failure }
{
    matches!(failure, Some(Failure::ParentFailed | Failure::ParentExited))
}
