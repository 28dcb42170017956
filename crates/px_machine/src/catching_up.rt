// What is kept of a node, brought up to what was seen of it; and who reads that is woken. It takes no memory.
ghost use Rattle.std.specs.Prelude.{◌≡◌, ◌<◌, ℕ, false, length, Some};
ghost use Rattle.px_flat.specs.Flat.{plan_of};
ghost use Rattle.px_flat.specs.Row.{parent_number};
ghost use Rattle.px_links.specs.Links.{is_absent};
ghost use Rattle.px_parts.specs.Parts.{AreStanding, plan_in};
ghost use Rattle.px_parts.specs.Seen.{AreAllSeen};
ghost use Rattle.px_machine.specs.CatchingUp.{HasCounted, HasTakenState, IsAskedFor};
ghost use Rattle.px_machine.specs.Kept.{IsOfPlan};
ghost use Rattle.px_machine.specs.Queue.{IsBehind, NobodyIsBehind, Wakes};
ghost use Rattle.px_machine.specs.Right.{IsRight};
ghost use Rattle.px_machine.specs.Told.{Agrees, IsCaughtUp};

use crate::kept::Kept;
use crate::queue::{BEHIND, WOKEN, pass};
use px_core::ConditionKind;
use px_flat::Flat;
use px_links::Links;
use px_micro::{asks_in, is_active, is_at_rest};
use px_parts::{Parts, failure_of, state_of};
use px_told::Asks;
use px_value::NodeState;
use std::mem;

fn wake_parent(flat: &Flat, queue: &mut Links, node: u32)
    requires node { node < length (plan_of flat.now) }
    requires cells { queue.old.cells ≡ length (plan_of flat.now) }
    requires lists { length queue.old.lists ≡ 2 }
    ensures parent { (parent : ℕ) → parent_number (plan_of flat.now) node ≡ Some parent
        → is_absent queue.new parent ≡ false }
    ensures wakes { Wakes queue.old queue.new }
{
    if let Some(parent) = flat.row(node).parent {
        queue.push_back_absent(WOKEN, parent);
    }
}

// The first child stands behind its parent, and each other one behind the last descendant of the one before.
fn wake_children(flat: &Flat, queue: &mut Links, node: u32)
    requires node { node < length (plan_of flat.now) }
    requires cells { queue.old.cells ≡ length (plan_of flat.now) }
    requires lists { length queue.old.lists ≡ 2 }
    ensures children { (child : ℕ) → child < length (plan_of flat.now)
        → parent_number (plan_of flat.now) child ≡ Some node → is_absent queue.new child ≡ false }
    ensures wakes { Wakes queue.old queue.new }
{
    let end = flat.extent(node).end;
    let mut child = node + 1;
    'children: while child < end {
        queue.push_back_absent(WOKEN, child);
        child = flat.extent(child).end;
    }
}

// Whether the node is busy, and whether it is at work, goes by its state.
fn count(kept: &mut Kept, node: u32, state: NodeState)
    requires busy { node < length kept.old.busy.group_of }
    requires claims { node < length kept.old.claims.variables }
    ensures { HasCounted kept.old kept.new node state }
{
    kept.busy.set(node, !is_at_rest(state));
    kept.claims.hold(node, is_active(state));
}

// Takes the state of a node that was seen. Where it is another one, its parent and its children are woken.
fn take_state(flat: &Flat, kept: &mut Kept, node: u32, state: NodeState)
    requires node { node < length (plan_of flat.now) }
    requires plan { IsOfPlan (plan_of flat.now) kept.old }
    requires agrees { Agrees (length (plan_of flat.now)) kept.old }
    ensures { HasTakenState (plan_of flat.now) kept.old kept.new node state }
{
    let before = mem::replace(&mut kept.states[node as usize], state);
    if state != before {
        count(kept, node, state);
        wake_parent(flat, &mut kept.queue, node);
        wake_children(flat, &mut kept.queue, node);
    }
}

// What a node asks of those below it, by what is kept of its conditions.
fn asks_of(parts: &Parts, kept: &Kept, node: u32) -> Asks
    requires stand { AreStanding parts.now }
    requires seen { AreAllSeen parts.now }
    requires node { node < length (plan_in parts.now) }
    requires plan { IsOfPlan (plan_in parts.now) kept.now }
    ensures { IsAskedFor parts.now kept.now node result }
{
    asks_in(
        state_of(parts, node),
        failure_of(parts, node),
        kept.conditions.condition(node, ConditionKind::Exit),
        kept.conditions.condition(node, ConditionKind::Invariant),
        kept.conditions.condition(node, ConditionKind::End),
    )
}

// Brings what is kept of a node that is behind up to what was seen of it.
fn catch_up_node(parts: &Parts, kept: &mut Kept, node: u32)
    requires stand { AreStanding parts.now }
    requires seen { AreAllSeen parts.now }
    requires right { IsRight parts.now kept.old }
    requires within { node < length (plan_in parts.now) }
    requires node { IsBehind kept.old.queue node }
    ensures right { IsRight parts.now kept.new }
    ensures caught_up { IsCaughtUp parts.now kept.new node }
    ensures wakes { Wakes kept.old.queue kept.new.queue }
    ensures conditions { kept.new.conditions ≡ kept.old.conditions }
{
    take_state(&parts.flat, kept, node, state_of(parts, node));
    let asks = asks_of(parts, kept, node);
    kept.told.set(node, asks, &mut kept.queue, WOKEN);
}

/// Brings what is kept of each node up to what was seen of it: its state, who counts, and what it asks. The node is woken,
/// and so are its parent and its children where its state has changed, and whoever is told something else.
pub(crate) fn catch_up(parts: &Parts, kept: &mut Kept)
    requires stand { AreStanding parts.now }
    requires seen { AreAllSeen parts.now }
    requires right { IsRight parts.now kept.old }
    ensures right { IsRight parts.now kept.new }
    ensures nobody { NobodyIsBehind kept.new.queue }
    ensures conditions { kept.new.conditions ≡ kept.old.conditions }
{
    'behind: while let Some(node) = kept.queue.first(BEHIND) {
        catch_up_node(parts, kept, node);
        pass(&mut kept.queue, node);
    }
}
