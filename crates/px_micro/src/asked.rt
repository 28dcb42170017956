// What a node's ancestors ask of it: to leave by an Exit, by an Invariant, or because they have ended.
ghost use Rattle.std.specs.Prelude.{◌≡◌, ◌<◌, length, IfOk, OnOk};
ghost use Rattle.std.specs.BTreeMap.{get};
ghost use Rattle.std.specs.Ordering.{nat_cmp};
ghost use Rattle.px_flat.specs.Row.{site_in};
ghost use Rattle.px_micro.specs.Above.{asked_of, asks_at, asks_in, in_state, AreRight, LeadsUp};
ghost use Rattle.px_parts.specs.Parts.{AreStanding, plan_in, world_in};

use crate::states::{
    is_active, is_executing, is_exit_failure, is_failing, is_false, is_invariant_failure,
    is_past_end, is_true,
};
use crate::truths::truth;
use px_parts::{Parts, failure_of, state_of};
use px_told::Asks;
use px_value::{Failure, NoMemory, NodeState};
use std::alloc::Global;
use std::collections::BTreeMap;

/// What a node in this state asks of all below it, by its failure and the truths of its Exit, its Invariant and its End.
pub fn asks_in(
    state: NodeState,
    failure: Option<Failure>,
    exit: Option<bool>,
    invariant: Option<bool>,
    end: Option<bool>,
) -> Asks
    ensures { result ≡ asks_in (in_state state failure) exit invariant end }
{
    Asks {
        exit: (is_active(state) && is_true(exit))
            || (is_failing(state) && is_exit_failure(failure)),
        invariant: (is_active(state) && is_false(invariant))
            || (is_failing(state) && is_invariant_failure(failure)),
        end: (is_executing(state) && is_true(end)) || is_past_end(state),
    }
}

// What one node asks of all below it.
fn asks(alloc: Global, parts: &Parts, node: u32) -> Result<Asks, NoMemory>
    requires stand { AreStanding parts.now }
    requires node { node < length (plan_in parts.now) }
    ensures { IfOk result (λ asked. asked
        ≡ asks_at (plan_in parts.now) (world_in parts.now) (site_in (plan_in parts.now) node).path) }
{
    let (state, failure) = (state_of(parts, node), failure_of(parts, node));
    let conditions = &parts.flat.node(node).conditions;
    let exit = truth(alloc, parts, &conditions.exit)?;
    let invariant = truth(alloc, parts, &conditions.invariant)?;
    let end = truth(alloc, parts, &conditions.end)?;
    Ok(asks_in(state, failure, exit, invariant, end))
}

// The ancestors of a node, from its parent up to the first of which it is known what they ask; and what is asked of the
// last of them.
fn unknown_above(
    alloc: Global,
    parts: &Parts,
    known: &BTreeMap<u32, Asks>,
    node: u32,
) -> Result<(Vec<u32>, Asks), NoMemory>
    requires stand { AreStanding parts.now }
    requires node { node < length (plan_in parts.now) }
    requires known { AreRight (plan_in parts.now) (world_in parts.now) (get nat_cmp known.now) }
    ensures { IfOk result (λ found. LeadsUp (plan_in parts.now) (world_in parts.now) node found.0.items found.1) }
{
    let mut chain = Vec::new(alloc);
    let mut last = node;
    'ancestors: while let Some(parent) = parts.flat.row(last).parent {
        if let Some(asked) = known.get(&parent) {
            return Ok((chain, *asked));
        }
        chain.push(parent)?;
        last = parent;
    }
    Ok((chain, Asks::NOTHING))
}

/// What is asked of a node. What is asked of the children of its ancestors is known from then on, so that no ancestor is
/// looked at twice in a step.
pub fn asked_of(
    alloc: Global,
    parts: &Parts,
    known: &mut BTreeMap<u32, Asks>,
    node: u32,
) -> Result<Asks, NoMemory>
    requires stand { AreStanding parts.now }
    requires node { node < length (plan_in parts.now) }
    requires known { AreRight (plan_in parts.now) (world_in parts.now) (get nat_cmp known.old) }
    ensures asked { IfOk result (λ asked. asked ≡ asked_of (plan_in parts.now) (world_in parts.now) node) }
    ensures known { OnOk result (AreRight (plan_in parts.now) (world_in parts.now) (get nat_cmp known.new)) }
{
    let (mut chain, mut asked) = unknown_above(alloc, parts, known, node)?;
    'descent: while let Some(ancestor) = chain.pop() {
        asked = asks(alloc, parts, ancestor)?.or(asked);
        known.insert(ancestor, asked)?;
    }
    Ok(asked)
}
