// The guards of a node, by what is seen in it, above it and below it. Only those are looked at that the rows of the node's
// state read, since the others decide nothing.
ghost use Rattle.std.specs.Prelude.{◌≡◌, ◌<◌, length, IfOk, OnOk};
ghost use Rattle.std.specs.BTreeMap.{get};
ghost use Rattle.std.specs.Ordering.{nat_cmp};
ghost use Rattle.px_value.specs.declared.enums.NodeState.TheVariants as states;
ghost use Rattle.px_sem.specs.Guards.{each_child, is_at_rest, ready_in};
ghost use Rattle.px_sem.specs.World.{parent_state};
ghost use Rattle.px_flat.specs.Row.{site_in};
ghost use Rattle.px_parts.specs.Parts.{AreStanding, plan_in, world_in, record_of};
ghost use Rattle.px_tables.specs.Reading.{read_by};
ghost use Rattle.px_micro.specs.Above.{asked_of, AreRight};
ghost use Rattle.px_micro.specs.Guarded.{guards_at, guards_in};

use crate::asked::asked_of;
use crate::children::children_rest;
use crate::records::{is_acknowledged, is_command_over, is_handle_known};
use crate::states::{is_executing, is_false, is_finished, is_true, is_waiting};
use crate::truths::{Truths, truth};
use px_core::Kind;
use px_parts::{Parts, failure_of, outcome_of, state_of};
use px_sem::Guards;
use px_told::Asks;
use px_value::NoMemory;
use px_value::NodeState::{
    self, Executing, Failing, Finished, Finishing, Inactive, IterationEnded, Waiting,
};
use std::alloc::Global;
use std::collections::BTreeMap;

// As if no guard held.
const UNREAD: Guards = Guards {
    outcome: None,
    failure: None,
    parent_waiting: false,
    parent_executing: false,
    parent_finished: false,
    ancestor_exit: false,
    ancestor_invariant: false,
    ancestor_end: false,
    exit_true: false,
    skip_true: false,
    start_true: false,
    pre_true: false,
    invariant_false: false,
    end_true: false,
    post_true: false,
    repeat_false: false,
    repeat_true: false,
    children_rest: false,
    handle_known: false,
    ready: false,
};

// The root's virtual parent is always EXECUTING.
fn parent_state(parts: &Parts, node: u32) -> NodeState
    requires stand { AreStanding parts.now }
    requires node { node < length (plan_in parts.now) }
    ensures { result ≡ parent_state (world_in parts.now) (site_in (plan_in parts.now) node) }
{
    match parts.flat.row(node).parent {
        Some(parent) => state_of(parts, parent),
        None => NodeState::Executing,
    }
}

// Whether a failing node may leave FAILING, by whether its children are at rest.
fn is_ready(parts: &Parts, node: u32, rest: bool) -> bool
    requires stand { AreStanding parts.now }
    requires node { node < length (plan_in parts.now) }
    ensures { result
        ≡ ready_in (site_in (plan_in parts.now) node).head.kind (record_of parts.now node).action rest }
{
    match parts.flat.row(node).head.kind {
        Kind::List => rest,
        Kind::Empty => false,
        Kind::Assignment => true,
        Kind::Command => is_command_over(parts, node),
        Kind::Update => is_acknowledged(parts, node),
    }
}

fn inactive(parts: &Parts, node: u32) -> Guards
    requires stand { AreStanding parts.now }
    requires node { node < length (plan_in parts.now) }
    ensures { result ≡ read_by states.Inactive (guards_at parts.now node) }
{
    let parent = parent_state(parts, node);
    Guards {
        parent_finished: is_finished(parent),
        parent_executing: is_executing(parent),
        ..UNREAD
    }
}

fn waiting(alloc: Global, parts: &Parts, node: u32, asked: Asks) -> Result<Guards, NoMemory>
    requires stand { AreStanding parts.now }
    requires node { node < length (plan_in parts.now) }
    requires asked { asked ≡ asked_of (plan_in parts.now) (world_in parts.now) node }
    ensures { IfOk result (λ read. read ≡ read_by states.Waiting (guards_at parts.now node)) }
{
    let conditions = &parts.flat.node(node).conditions;
    Ok(Guards {
        ancestor_exit: asked.exit,
        exit_true: is_true(truth(alloc, parts, &conditions.exit)?),
        ancestor_invariant: asked.invariant,
        ancestor_end: asked.end,
        skip_true: is_true(truth(alloc, parts, &conditions.skip)?),
        start_true: is_true(truth(alloc, parts, &conditions.start)?),
        pre_true: is_true(truth(alloc, parts, &conditions.pre)?),
        ..UNREAD
    })
}

fn executing(alloc: Global, parts: &Parts, node: u32, asked: Asks) -> Result<Guards, NoMemory>
    requires stand { AreStanding parts.now }
    requires node { node < length (plan_in parts.now) }
    requires asked { asked ≡ asked_of (plan_in parts.now) (world_in parts.now) node }
    ensures { IfOk result (λ read. read ≡ read_by states.Executing (guards_at parts.now node)) }
{
    let conditions = &parts.flat.node(node).conditions;
    Ok(Guards {
        ancestor_exit: asked.exit,
        exit_true: is_true(truth(alloc, parts, &conditions.exit)?),
        ancestor_invariant: asked.invariant,
        invariant_false: is_false(truth(alloc, parts, &conditions.invariant)?),
        end_true: is_true(truth(alloc, parts, &conditions.end)?),
        post_true: is_true(truth(alloc, parts, &conditions.post)?),
        ..UNREAD
    })
}

fn finishing(alloc: Global, parts: &Parts, node: u32, asked: Asks) -> Result<Guards, NoMemory>
    requires stand { AreStanding parts.now }
    requires node { node < length (plan_in parts.now) }
    requires asked { asked ≡ asked_of (plan_in parts.now) (world_in parts.now) node }
    ensures { IfOk result (λ read. read ≡ read_by states.Finishing (guards_at parts.now node)) }
{
    let conditions = &parts.flat.node(node).conditions;
    Ok(Guards {
        ancestor_exit: asked.exit,
        exit_true: is_true(truth(alloc, parts, &conditions.exit)?),
        ancestor_invariant: asked.invariant,
        invariant_false: is_false(truth(alloc, parts, &conditions.invariant)?),
        children_rest: children_rest(parts, node),
        handle_known: is_handle_known(parts, node),
        post_true: is_true(truth(alloc, parts, &conditions.post)?),
        outcome: outcome_of(parts, node),
        failure: failure_of(parts, node),
        ..UNREAD
    })
}

fn failing(parts: &Parts, node: u32) -> Guards
    requires stand { AreStanding parts.now }
    requires node { node < length (plan_in parts.now) }
    ensures { result ≡ read_by states.Failing (guards_at parts.now node) }
{
    Guards {
        ready: is_ready(parts, node, children_rest(parts, node)),
        outcome: outcome_of(parts, node),
        failure: failure_of(parts, node),
        ..UNREAD
    }
}

fn iteration_ended(alloc: Global, parts: &Parts, node: u32, asked: Asks) -> Result<Guards, NoMemory>
    requires stand { AreStanding parts.now }
    requires node { node < length (plan_in parts.now) }
    requires asked { asked ≡ asked_of (plan_in parts.now) (world_in parts.now) node }
    ensures { IfOk result (λ read. read ≡ read_by states.IterationEnded (guards_at parts.now node)) }
{
    let repeat = truth(alloc, parts, &parts.flat.node(node).conditions.repeat)?;
    Ok(Guards {
        ancestor_exit: asked.exit,
        ancestor_invariant: asked.invariant,
        ancestor_end: asked.end,
        repeat_false: is_false(repeat),
        repeat_true: is_true(repeat),
        outcome: outcome_of(parts, node),
        failure: failure_of(parts, node),
        ..UNREAD
    })
}

fn finished(parts: &Parts, node: u32) -> Guards
    requires stand { AreStanding parts.now }
    requires node { node < length (plan_in parts.now) }
    ensures { result ≡ read_by states.Finished (guards_at parts.now node) }
{
    Guards {
        parent_waiting: is_waiting(parent_state(parts, node)),
        ..UNREAD
    }
}

/// All guards of a node, by what is known of it: its parent's state, what is asked of it, whether its children are at rest,
/// and the truths of its conditions; what it is itself the parts say.
pub fn guards_by(
    parts: &Parts,
    node: u32,
    parent: NodeState,
    asked: Asks,
    rest: bool,
    truths: &Truths,
) -> Guards
    requires stand { AreStanding parts.now }
    requires node { node < length (plan_in parts.now) }
    ensures { result ≡ guards_in (site_in (plan_in parts.now) node).head.kind (record_of parts.now node) parent asked
        rest truths.now }
{
    Guards {
        outcome: outcome_of(parts, node),
        failure: failure_of(parts, node),
        parent_waiting: is_waiting(parent),
        parent_executing: is_executing(parent),
        parent_finished: is_finished(parent),
        ancestor_exit: asked.exit,
        ancestor_invariant: asked.invariant,
        ancestor_end: asked.end,
        exit_true: is_true(truths.exit),
        skip_true: is_true(truths.skip),
        start_true: is_true(truths.start),
        pre_true: is_true(truths.pre),
        invariant_false: is_false(truths.invariant),
        end_true: is_true(truths.end),
        post_true: is_true(truths.post),
        repeat_false: is_false(truths.repeat),
        repeat_true: is_true(truths.repeat),
        children_rest: rest,
        handle_known: is_handle_known(parts, node),
        ready: is_ready(parts, node, rest),
    }
}

/// The guards of a node that the rows of its state read; the others count as not holding.
pub fn guards_of(
    alloc: Global,
    parts: &Parts,
    known: &mut BTreeMap<u32, Asks>,
    node: u32,
) -> Result<Guards, NoMemory>
    requires stand { AreStanding parts.now }
    requires node { node < length (plan_in parts.now) }
    requires known { AreRight (plan_in parts.now) (world_in parts.now) (get nat_cmp known.old) }
    ensures guards { IfOk result (λ read. read ≡ read_by (record_of parts.now node).state (guards_at parts.now node)) }
    ensures known { OnOk result (AreRight (plan_in parts.now) (world_in parts.now) (get nat_cmp known.new)) }
{
    match state_of(parts, node) {
        Inactive => Ok(inactive(parts, node)),
        Waiting => waiting(alloc, parts, node, asked_of(alloc, parts, known, node)?),
        Executing => executing(alloc, parts, node, asked_of(alloc, parts, known, node)?),
        Finishing => finishing(alloc, parts, node, asked_of(alloc, parts, known, node)?),
        Failing => Ok(failing(parts, node)),
        IterationEnded => iteration_ended(alloc, parts, node, asked_of(alloc, parts, known, node)?),
        Finished => Ok(finished(parts, node)),
    }
}
