// The names that a plan looks up, each once, in the order in which they stand first.
ghost use Rattle.std.specs.Prelude.{◌≡◌, ◌<◌, ◌^◌, [], fold, map, length, IfOk, OnOk};
ghost use Rattle.std.specs.List.{flat_map};
ghost use Rattle.px_core.specs.Expr.{term_of};
ghost use Rattle.px_core.specs.Fit.{terms_of_conditions};
ghost use Rattle.px_core.specs.declared.node.CoreNode.TheViews.{out-CoreNode};
ghost use Rattle.px_core.specs.Plan.{condition_terms, head_of, body_data, target_data, pair_data};
ghost use Rattle.px_flat.specs.Lookups.{with_name, lookups_in, lookups_in_target, lookups_in_body, lookups_in_head};
ghost use Rattle.px_flat.specs.Laying.{heads_of};

use indexmap::IndexSet;
use px_core::{Body, Conditions, CoreNode, Expr, Pair, Target};
use px_value::{Name, NoMemory};
use std::alloc::{AllocError, Global};

// Adds a name after the others. It is copied only if it is not among them.
fn add_name(alloc: Global, name: &Name, names: &mut IndexSet<Name>) -> Result<(), NoMemory>
    ensures { OnOk result (names.new.keys ≡ with_name names.old.keys name.now) }
{
    if !names.contains(name) {
        names.insert(name.copy(alloc)?)?;
    }
    Ok(())
}

// Adds the names that an expression looks up.
#[cycle(add)]
fn add(alloc: Global, expr: &Expr, names: &mut IndexSet<Name>) -> Result<(), NoMemory>
    ensures { OnOk result (names.new.keys ≡ fold with_name names.old.keys (lookups_in (term_of expr.now))) }
{
    match expr {
        Expr::Cell { index, .. } => add(alloc, index, names)?,
        Expr::Look { name, args, .. } => {
            add_name(alloc, name, names)?;
            add_each(alloc, args, names)?;
        }
        Expr::Unary { arg, .. } => add(alloc, arg, names)?,
        Expr::Binary { left, right, .. } => {
            add(alloc, left, names)?;
            add(alloc, right, names)?;
        }
        Expr::Literal(_) | Expr::Var { .. } => {}
        Expr::StateOf(_) | Expr::OutcomeOf(_) | Expr::FailureOf(_) => {}
        Expr::HandleOf(_) | Expr::Acknowledged(_) => {}
    }
    Ok(())
}

#[cycle(add)]
fn add_each(alloc: Global, exprs: &[Expr], names: &mut IndexSet<Name>) -> Result<(), NoMemory>
    ensures { OnOk result (names.new.keys
        ≡ fold with_name names.old.keys (flat_map lookups_in (map term_of exprs.now))) }
{
    for expr in exprs {
        add(alloc, expr, names)?;
    }
    Ok(())
}

#[tactic(auto, using(crate::proofs::LookedUp::fold_append))]
fn add_conditions(
    alloc: Global,
    conditions: &Conditions,
    names: &mut IndexSet<Name>,
) -> Result<(), NoMemory>
    ensures { OnOk result (names.new.keys ≡ fold with_name names.old.keys
        (flat_map lookups_in (terms_of_conditions (condition_terms conditions.now)))) }
{
    add(alloc, &conditions.start, names)?;
    add(alloc, &conditions.end, names)?;
    add(alloc, &conditions.exit, names)?;
    add(alloc, &conditions.skip, names)?;
    add(alloc, &conditions.repeat, names)?;
    add(alloc, &conditions.pre, names)?;
    add(alloc, &conditions.post, names)?;
    add(alloc, &conditions.invariant, names)
}

fn add_target(alloc: Global, target: &Target, names: &mut IndexSet<Name>) -> Result<(), NoMemory>
    ensures { OnOk result (names.new.keys
        ≡ fold with_name names.old.keys (lookups_in_target (target_data target.now))) }
{
    match &target.index {
        Some(index) => add(alloc, index, names),
        None => Ok(()),
    }
}

fn add_pairs(alloc: Global, pairs: &[Pair], names: &mut IndexSet<Name>) -> Result<(), NoMemory>
    ensures { OnOk result (names.new.keys ≡ fold with_name names.old.keys
        (flat_map lookups_in (map (λ pair. pair.value) (map pair_data pairs.now)))) }
{
    for pair in pairs {
        add(alloc, &pair.value, names)?;
    }
    Ok(())
}

#[tactic(auto, using(crate::proofs::LookedUp::fold_append))]
fn add_body(alloc: Global, body: &Body, names: &mut IndexSet<Name>) -> Result<(), NoMemory>
    ensures { OnOk result (names.new.keys ≡ fold with_name names.old.keys (lookups_in_body (body_data body.now))) }
{
    match body {
        Body::Nothing => {}
        Body::Assign { target, value } => {
            add(alloc, value, names)?;
            add_target(alloc, target, names)?;
        }
        Body::Command { args, result, .. } => {
            add_each(alloc, args, names)?;
            if let Some(target) = result {
                add_target(alloc, target, names)?;
            }
        }
        Body::Update { pairs } => add_pairs(alloc, pairs, names)?,
    }
    Ok(())
}

#[tactic(auto, using(crate::proofs::LookedUp::fold_append))]
fn add_node(alloc: Global, node: &CoreNode, names: &mut IndexSet<Name>) -> Result<(), NoMemory>
    ensures { OnOk result (names.new.keys
        ≡ fold with_name names.old.keys (lookups_in_head (head_of (out-CoreNode node.now)))) }
{
    add_conditions(alloc, &node.conditions, names)?;
    add_body(alloc, &node.body, names)
}

/// The lookup names of nodes; fewer than 2^32, and else there is no memory for their numbers.
pub fn lookups(alloc: Global, nodes: &[&CoreNode]) -> Result<IndexSet<Name>, NoMemory>
    ensures names { IfOk result (λ names. names.keys
        ≡ fold with_name [] (flat_map lookups_in_head (heads_of nodes.now))) }
    ensures few { IfOk result (λ names. length names.keys < 2 ^ 32) }
{
    let mut names = IndexSet::new(alloc);
    for node in nodes {
        add_node(alloc, node, &mut names)?;
    }
    if names.len() > u32::MAX as usize {
        return Err(AllocError);
    }
    Ok(names)
}
