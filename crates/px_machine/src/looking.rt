// The nodes that are woken, judged by what is kept: which go, and which writers would start.
ghost use Rattle.std.specs.Prelude.{◌≡◌, ◌<◌, ◌++◌, [], length, OnOk};
ghost use Rattle.std.specs.List.{cons_option};
ghost use Rattle.px_flat.specs.Flat.{plan_of};
ghost use Rattle.px_assign.specs.Conflicts.{is_writer};
ghost use Rattle.px_parts.specs.Parts.{AreStanding, plan_in};
ghost use Rattle.px_micro.specs.Going.{is_start, with_node};
ghost use Rattle.px_parts.specs.Seen.{AreAllSeen};
ghost use Rattle.px_machine.specs.Contest.{HasLooked, IsSimulation};
ghost use Rattle.px_machine.specs.Kept.{IsOfPlan, arrival_of};
ghost use Rattle.px_machine.specs.Looking.{HasLookedAt, IsSameButMark};
ghost use Rattle.px_machine.specs.Right.{IsNow, IsRight};

use crate::kept::Kept;
use crate::queue::WOKEN;
use px_assign::variable_of;
use px_flat::Flat;
use px_micro::{Going, guards_by, is_executing, is_waiting};
use px_parts::{Parts, state_of};
use px_sem::Arrival;
use px_tables::dest;
use px_value::{NoMemory, NodeState};

/// Where a node goes by what is kept, if it goes anywhere: by its kind, its own record, its parent's state, what it is told,
/// whether its children are at rest, and those of its conditions that the rows of its state read.
pub(crate) fn arrival(parts: &Parts, kept: &Kept, node: u32) -> Option<Arrival>
    requires stand { AreStanding parts.now }
    requires seen { AreAllSeen parts.now }
    requires plan { IsOfPlan (plan_in parts.now) kept.now }
    requires node { node < length (plan_in parts.now) }
    ensures { result ≡ arrival_of parts.now kept.now node }
{
    let state = state_of(parts, node);
    let guards = guards_by(
        parts,
        node,
        kept.parent_state(&parts.flat, node),
        kept.told.told(node),
        kept.busy.is_nobody(node),
        &kept.truths(node, state),
    );
    dest(parts.flat.row(node).head.kind, state, &guards)
}

// Whether the node writes a variable.
fn is_writer(flat: &Flat, node: u32) -> bool
    requires { node < length (plan_of flat.now) }
    ensures { result ≡ is_writer (plan_of flat.now) node }
{
    variable_of(flat, node).is_some()
}

// Whether a node in this state that goes there would start.
fn is_start(state: NodeState, arrival: Option<Arrival>) -> bool
    ensures { result ≡ is_start state arrival }
{
    match arrival {
        Some(arrival) => is_waiting(state) && is_executing(arrival.to),
        None => false,
    }
}

/// One more node that goes, if it goes anywhere.
pub(crate) fn push_going(
    going: &mut Vec<Going>,
    node: u32,
    arrival: Option<Arrival>,
) -> Result<(), NoMemory>
    ensures { OnOk result (going.new.items ≡ going.old.items ++ cons_option (with_node node arrival) []) }
{
    if let Some(arrival) = arrival {
        going.push(Going { node, arrival })?;
    }
    Ok(())
}

// A writer that would start is marked, and no other node; any other that has a row goes.
fn look_at(
    parts: &Parts,
    kept: &mut Kept,
    node: u32,
    going: &mut Vec<Going>,
) -> Result<(), NoMemory>
    requires stand { AreStanding parts.now }
    requires seen { AreAllSeen parts.now }
    requires plan { IsOfPlan (plan_in parts.now) kept.old }
    requires node { node < length (plan_in parts.now) }
    ensures same { IsSameButMark kept.old kept.new node }
    ensures looked { OnOk result (HasLookedAt parts.now kept.new node going.old.items going.new.items) }
{
    let arrival = arrival(parts, kept, node);
    let claims = is_writer(&parts.flat, node) && is_start(state_of(parts, node), arrival);
    kept.claims.want(node, claims);
    if claims {
        return Ok(());
    }
    push_going(going, node, arrival)
}

/// Looks at all nodes that are woken, and finds those that go without asking for a variable, in place of those of before. A
/// loser of a conflict stays marked from step to step; a node that neither is woken nor marked goes nowhere. `NoMemory`
/// leaves who was woken woken.
pub(crate) fn look(parts: &Parts, kept: &mut Kept, going: &mut Vec<Going>) -> Result<(), NoMemory>
    requires stand { AreStanding parts.now }
    requires right { IsRight parts.now kept.old }
    requires now { IsNow parts.now kept.old }
    ensures right { IsRight parts.now kept.new }
    ensures now { IsNow parts.now kept.new }
    ensures conditions { kept.new.conditions ≡ kept.old.conditions }
    ensures looked { OnOk result (HasLooked parts.now kept.new going.new.items) }
    ensures simulation { OnOk result (IsSimulation parts.now kept.new) }
{
    going.clear();
    kept.queue.each_once();
    let mut at = kept.queue.first(WOKEN);
    'woken: while let Some(node) = at {
        look_at(parts, kept, node, going)?;
        at = kept.queue.next(node);
    }
    Ok(())
}
