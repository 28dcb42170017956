// The distinct tolerances of a plan's lookups, rising.
ghost use Rattle.std.specs.Prelude.{◌≡◌, ◌<◌, ◌≤◌, ℕ, [], fold, length, map, slice_index_or, take, All, IfOk, OnOk};
ghost use Rattle.std.specs.List.{cons_option, flat_map};
ghost use Rattle.px_core.specs.Expr.{term_of};
ghost use Rattle.px_core.specs.Fit.{terms_of_conditions};
ghost use Rattle.px_core.specs.declared.node.CoreNode.TheViews.{out-CoreNode};
ghost use Rattle.px_core.specs.Plan.{condition_terms, head_of, body_data, target_data, pair_data};
ghost use Rattle.px_sem.specs.Tolerances.{tolerances_in, tolerances_in_body, tolerances_in_head, tolerances_in_target, with_tolerance};
ghost use Rattle.px_flat.specs.Laying.{heads_of};

use px_core::{Body, Conditions, CoreNode, Expr, Pair, Target};
use px_value::NoMemory;
use std::alloc::Global;

// How many of rising tolerances are less.
fn count_less(tolerances: &[u32], tolerance: u32) -> usize
    ensures within { result ≤ length tolerances.now }
    ensures less { All (λ other. other < tolerance) (take result tolerances.now) }
    ensures others { (d : ℕ) → result < length tolerances.now → tolerance ≤ slice_index_or tolerances.now result d }
{
    for at in 0..tolerances.len() {
        if tolerance <= tolerances[at] {
            return at;
        }
    }
    tolerances.len()
}

// Adds a tolerance in its place among rising ones, if it is not one of them.
fn add_tolerance(tolerances: &mut Vec<u32>, tolerance: u32) -> Result<(), NoMemory>
    ensures { OnOk result (tolerances.new.items ≡ with_tolerance tolerances.old.items tolerance) }
{
    let at = count_less(tolerances, tolerance);
    if at < tolerances.len() && tolerances[at] == tolerance {
        return Ok(());
    }
    tolerances.insert(at, tolerance)?;
    Ok(())
}

// Adds the tolerance of a lookup, where it has one.
fn add_own(tolerance: Option<u32>, tolerances: &mut Vec<u32>) -> Result<(), NoMemory>
    ensures { OnOk result (tolerances.new.items
        ≡ fold with_tolerance tolerances.old.items (cons_option tolerance [])) }
{
    match tolerance {
        Some(tolerance) => add_tolerance(tolerances, tolerance),
        None => Ok(()),
    }
}

// Adds the tolerances in an expression.
#[cycle(add)]
fn add(expr: &Expr, tolerances: &mut Vec<u32>) -> Result<(), NoMemory>
    ensures { OnOk result (tolerances.new.items ≡ fold with_tolerance tolerances.old.items (tolerances_in (term_of expr.now))) }
{
    match expr {
        Expr::Cell { index, .. } => add(index, tolerances)?,
        Expr::Look {
            args,
            tolerance,
            ..
        } => {
            add_own(*tolerance, tolerances)?;
            add_each(args, tolerances)?;
        }
        Expr::Unary { arg, .. } => add(arg, tolerances)?,
        Expr::Binary { left, right, .. } => {
            add(left, tolerances)?;
            add(right, tolerances)?;
        }
        Expr::Literal(_) | Expr::Var { .. } => {}
        Expr::StateOf(_) | Expr::OutcomeOf(_) | Expr::FailureOf(_) => {}
        Expr::HandleOf(_) | Expr::Acknowledged(_) => {}
    }
    Ok(())
}

#[cycle(add)]
fn add_each(exprs: &[Expr], tolerances: &mut Vec<u32>) -> Result<(), NoMemory>
    ensures { OnOk result (tolerances.new.items
        ≡ fold with_tolerance tolerances.old.items (flat_map tolerances_in (map term_of exprs.now))) }
{
    for expr in exprs {
        add(expr, tolerances)?;
    }
    Ok(())
}

#[tactic(auto, using(crate::proofs::LookedUp::fold_append))]
fn add_conditions(conditions: &Conditions, tolerances: &mut Vec<u32>) -> Result<(), NoMemory>
    ensures { OnOk result (tolerances.new.items ≡ fold with_tolerance tolerances.old.items
        (flat_map tolerances_in (terms_of_conditions (condition_terms conditions.now)))) }
{
    add(&conditions.start, tolerances)?;
    add(&conditions.end, tolerances)?;
    add(&conditions.exit, tolerances)?;
    add(&conditions.skip, tolerances)?;
    add(&conditions.repeat, tolerances)?;
    add(&conditions.pre, tolerances)?;
    add(&conditions.post, tolerances)?;
    add(&conditions.invariant, tolerances)
}

fn add_target(target: &Target, tolerances: &mut Vec<u32>) -> Result<(), NoMemory>
    ensures { OnOk result (tolerances.new.items
        ≡ fold with_tolerance tolerances.old.items (tolerances_in_target (target_data target.now))) }
{
    match &target.index {
        Some(index) => add(index, tolerances),
        None => Ok(()),
    }
}

fn add_pairs(pairs: &[Pair], tolerances: &mut Vec<u32>) -> Result<(), NoMemory>
    ensures { OnOk result (tolerances.new.items ≡ fold with_tolerance tolerances.old.items
        (flat_map tolerances_in (map (λ pair. pair.value) (map pair_data pairs.now)))) }
{
    for pair in pairs {
        add(&pair.value, tolerances)?;
    }
    Ok(())
}

#[tactic(auto, using(crate::proofs::LookedUp::fold_append))]
fn add_body(body: &Body, tolerances: &mut Vec<u32>) -> Result<(), NoMemory>
    ensures { OnOk result (tolerances.new.items ≡ fold with_tolerance tolerances.old.items (tolerances_in_body (body_data body.now))) }
{
    match body {
        Body::Nothing => {}
        Body::Assign { target, value } => {
            add(value, tolerances)?;
            add_target(target, tolerances)?;
        }
        Body::Command { args, result, .. } => {
            add_each(args, tolerances)?;
            if let Some(target) = result {
                add_target(target, tolerances)?;
            }
        }
        Body::Update { pairs } => add_pairs(pairs, tolerances)?,
    }
    Ok(())
}

#[tactic(auto, using(crate::proofs::LookedUp::fold_append))]
fn add_node(node: &CoreNode, tolerances: &mut Vec<u32>) -> Result<(), NoMemory>
    ensures { OnOk result (tolerances.new.items
        ≡ fold with_tolerance tolerances.old.items (tolerances_in_head (head_of (out-CoreNode node.now)))) }
{
    add_conditions(&node.conditions, tolerances)?;
    add_body(&node.body, tolerances)
}

/// The distinct tolerances in nodes, rising.
pub fn tolerances(alloc: Global, nodes: &[&CoreNode]) -> Result<Vec<u32>, NoMemory>
    ensures { IfOk result (λ tolerances. tolerances.items
        ≡ fold with_tolerance [] (flat_map tolerances_in_head (heads_of nodes.now))) }
{
    let mut tolerances = Vec::new(alloc);
    for node in nodes {
        add_node(node, &mut tolerances)?;
    }
    Ok(tolerances)
}
