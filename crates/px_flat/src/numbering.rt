// What the nodes of a plan compute, with numbers in place of names.
ghost use Rattle.std.specs.Prelude.{◌≡◌, map, IfOk};
ghost use Rattle.std.specs.Option.{option_map};
ghost use Rattle.px_core.specs.Expr.{term_of};
ghost use Rattle.px_core.specs.declared.node.CoreNode.TheViews.{out-CoreNode};
ghost use Rattle.px_core.specs.Plan.{condition_terms, head_of, body_data, pair_data, target_data};
ghost use Rattle.px_flat.specs.Laying.{heads_of};
ghost use Rattle.px_flat.specs.Names.{plan_in};
ghost use Rattle.px_flat.specs.Numbered.{numbered, numbered_target, numbered_body, numbered_conditions, numbered_node};
ghost use Rattle.px_flat.specs.NumberedData.{expr_data, conditions_data, node_data, AreNumbered};
ghost use Rattle.px_flat.specs.NumberedData as numbers;

use crate::names::Names;
use crate::numbered::{
    NumberedBody, NumberedConditions, NumberedExpr, NumberedNode, NumberedTarget,
};
use px_core::{Body, Conditions, CoreNode, Expr, Pair, Target};
use px_value::NoMemory;
use std::alloc::Global;

/// An expression with numbers in place of names.
#[cycle(numbered)]
fn numbered(alloc: Global, names: &Names, expr: &Expr) -> Result<NumberedExpr, NoMemory>
    ensures { IfOk result (λ made. expr_data made ≡ numbered (plan_in names.now) (term_of expr.now)) }
{
    match expr {
        Expr::Literal(value) => Ok(NumberedExpr::Literal(value.copy(alloc)?)),
        Expr::Var { owner, name } => Ok(NumberedExpr::Variable(names.slot(owner, name).first)),
        Expr::Cell { owner, name, index } => {
            let slot = names.slot(owner, name);
            Ok(NumberedExpr::Element {
                first: slot.first,
                size: slot.size,
                index: boxed_numbered(alloc, names, index)?,
            })
        }
        Expr::StateOf(path) => Ok(NumberedExpr::StateOf(names.node(path))),
        Expr::OutcomeOf(path) => Ok(NumberedExpr::OutcomeOf(names.node(path))),
        Expr::FailureOf(path) => Ok(NumberedExpr::FailureOf(names.node(path))),
        Expr::HandleOf(path) => Ok(NumberedExpr::HandleOf(names.node(path))),
        Expr::Acknowledged(path) => Ok(NumberedExpr::Acknowledged(names.node(path))),
        Expr::Look {
            name,
            args,
            tolerance,
            ..
        } => Ok(NumberedExpr::Look {
            lookup: names.lookup(name),
            args: each_numbered(alloc, names, args)?,
            tolerance: *tolerance,
        }),
        Expr::Unary { op, arg } => Ok(NumberedExpr::Unary {
            op: *op,
            arg: boxed_numbered(alloc, names, arg)?,
        }),
        Expr::Binary { op, left, right } => Ok(NumberedExpr::Binary {
            op: *op,
            left: boxed_numbered(alloc, names, left)?,
            right: boxed_numbered(alloc, names, right)?,
        }),
    }
}

/// An expression with numbers in place of names, in a box.
#[cycle(numbered)]
fn boxed_numbered(alloc: Global, names: &Names, expr: &Expr) -> Result<Box<NumberedExpr>, NoMemory>
    ensures { IfOk result (λ made. expr_data made.value ≡ numbered (plan_in names.now) (term_of expr.now)) }
{
    let made = numbered(alloc, names, expr)?;
    Ok(Box::new(alloc, made)?)
}

/// Expressions with numbers in place of names, in their order.
#[cycle(numbered)]
fn each_numbered(
    alloc: Global,
    names: &Names,
    exprs: &[Expr],
) -> Result<Vec<NumberedExpr>, NoMemory>
    ensures { IfOk result (λ made. map expr_data made.items
        ≡ map (numbered (plan_in names.now)) (map term_of exprs.now)) }
{
    let mut made = Vec::with_capacity(alloc, exprs.len())?;
    for expr in exprs {
        made.push(numbered(alloc, names, expr)?)?;
    }
    Ok(made)
}

fn numbered_index(
    alloc: Global,
    names: &Names,
    index: &Option<Expr>,
) -> Result<Option<NumberedExpr>, NoMemory>
    ensures { IfOk result (λ made. option_map expr_data made
        ≡ option_map (numbered (plan_in names.now)) (option_map term_of index.now)) }
{
    Ok(match index {
        Some(index) => Some(numbered(alloc, names, index)?),
        None => None,
    })
}

fn numbered_target(
    alloc: Global,
    names: &Names,
    target: &Target,
) -> Result<NumberedTarget, NoMemory>
    ensures { IfOk result (λ made. numbers.target_data made
        ≡ numbered_target (plan_in names.now) (target_data target.now)) }
{
    let slot = names.slot(&target.owner, &target.name);
    Ok(NumberedTarget {
        first: slot.first,
        size: slot.size,
        kind: slot.kind,
        index: numbered_index(alloc, names, &target.index)?,
    })
}

fn numbered_result(
    alloc: Global,
    names: &Names,
    target: &Option<Target>,
) -> Result<Option<NumberedTarget>, NoMemory>
    ensures { IfOk result (λ made. option_map numbers.target_data made
        ≡ option_map (numbered_target (plan_in names.now)) (option_map target_data target.now)) }
{
    Ok(match target {
        Some(target) => Some(numbered_target(alloc, names, target)?),
        None => None,
    })
}

fn numbered_pairs(
    alloc: Global,
    names: &Names,
    pairs: &[Pair],
) -> Result<Vec<NumberedExpr>, NoMemory>
    ensures { IfOk result (λ made. map expr_data made.items
        ≡ map (λ pair. numbered (plan_in names.now) pair.value) (map pair_data pairs.now)) }
{
    let mut made = Vec::with_capacity(alloc, pairs.len())?;
    for pair in pairs {
        made.push(numbered(alloc, names, &pair.value)?)?;
    }
    Ok(made)
}

fn numbered_body(alloc: Global, names: &Names, body: &Body) -> Result<NumberedBody, NoMemory>
    ensures { IfOk result (λ made. numbers.body_data made
        ≡ numbered_body (plan_in names.now) (body_data body.now)) }
{
    match body {
        Body::Nothing => Ok(NumberedBody::Nothing),
        Body::Assign { target, value } => Ok(NumberedBody::Assign {
            target: numbered_target(alloc, names, target)?,
            value: numbered(alloc, names, value)?,
        }),
        Body::Command { args, result, .. } => Ok(NumberedBody::Command {
            args: each_numbered(alloc, names, args)?,
            result: numbered_result(alloc, names, result)?,
        }),
        Body::Update { pairs } => Ok(NumberedBody::Update {
            values: numbered_pairs(alloc, names, pairs)?,
        }),
    }
}

fn numbered_conditions(
    alloc: Global,
    names: &Names,
    conditions: &Conditions,
) -> Result<NumberedConditions, NoMemory>
    ensures { IfOk result (λ made. conditions_data made
        ≡ numbered_conditions (plan_in names.now) (condition_terms conditions.now)) }
{
    Ok(NumberedConditions {
        start: numbered(alloc, names, &conditions.start)?,
        end: numbered(alloc, names, &conditions.end)?,
        exit: numbered(alloc, names, &conditions.exit)?,
        skip: numbered(alloc, names, &conditions.skip)?,
        repeat: numbered(alloc, names, &conditions.repeat)?,
        pre: numbered(alloc, names, &conditions.pre)?,
        post: numbered(alloc, names, &conditions.post)?,
        invariant: numbered(alloc, names, &conditions.invariant)?,
    })
}

fn numbered_node(alloc: Global, names: &Names, node: &CoreNode) -> Result<NumberedNode, NoMemory>
    ensures { IfOk result (λ made. node_data made
        ≡ numbered_node (plan_in names.now) (head_of (out-CoreNode node.now))) }
{
    Ok(NumberedNode {
        conditions: numbered_conditions(alloc, names, &node.conditions)?,
        body: numbered_body(alloc, names, &node.body)?,
    })
}

/// What each node of a plan computes, in preorder.
pub fn numbered_nodes(
    alloc: Global,
    names: &Names,
    nodes: &[&CoreNode],
) -> Result<Vec<NumberedNode>, NoMemory>
    requires { heads_of nodes.now ≡ map (λ site. site.head) (plan_in names.now) }
    ensures { IfOk result (λ made. AreNumbered (plan_in names.now) made.items) }
{
    let mut made = Vec::with_capacity(alloc, nodes.len())?;
    for node in nodes {
        made.push(numbered_node(alloc, names, node)?)?;
    }
    Ok(made)
}
