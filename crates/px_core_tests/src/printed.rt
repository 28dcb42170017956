// Core plans as lines, one for each node in preorder, so that the lines tell the plan.
//
//     PATH: KIND; Priority N; VARIABLES; CONDITIONS; ACTION
//
// Each part but the first two is there where the node has it. A priority is left out where it is 100000, and a condition
// where it is the literal `true` (Start, End, Pre, Post, Invariant) or `false` (Exit, Skip, Repeat). Conditions stand in the
// order of `Conditions`. A variable is `TYPE NAME`, `[SIZE]` where it is an array, and `= VALUE VALUE` where it has values
// at first. An action is `TARGET = EXPRESSION`, `NAME(ARGUMENTS)` with `TARGET = ` before it where there is one, or
// `Update NAME = EXPRESSION, NAME = EXPRESSION`.
mod expression;
mod parts;
mod value;

use expression::push_expr;
use itoa::Buffer;
use parts::{push_action, push_variable};
use px_core::{Conditions, CoreNode, Expr, Kind, Plan};
use px_value::{NoMemory, Value};
use std::alloc::Global;
use value::push_all;

/// The priority of a node where its plan gives none.
const DEFAULT_PRIORITY: u32 = 100_000;

/// The lines of a plan, the last of which ends without a line feed.
pub(crate) fn lines_of(alloc: Global, plan: &Plan) -> Result<String, NoMemory> {
    let mut lines = String::new(alloc);
    push_tree(alloc, "", &plan.root, &mut lines)?;
    Ok(lines)
}

// A node and all below it, where its parent's path and a dot are given.
fn push_tree(
    alloc: Global,
    above: &str,
    node: &CoreNode,
    out: &mut String,
) -> Result<(), NoMemory> {
    out.push_str(above)?;
    push_all(&[node.name.as_str(), ": "], out)?;
    push_head(node, out)?;
    let inside = format!(in alloc; "{above}{}.", node.name.as_str())?;
    for child in &node.children {
        out.push_str("\n")?;
        push_tree(alloc, inside.as_str(), child, out)?;
    }
    Ok(())
}

// What a node has beside its name and its children.
fn push_head(node: &CoreNode, out: &mut String) -> Result<(), NoMemory> {
    out.push_str(kind_word(node.kind))?;
    if node.priority != DEFAULT_PRIORITY {
        push_all(&["; Priority ", Buffer::new().format(node.priority)], out)?;
    }
    for variable in &node.variables {
        out.push_str("; ")?;
        push_variable(variable, out)?;
    }
    push_conditions(&node.conditions, out)?;
    push_action(&node.body, out)
}

fn kind_word(kind: Kind) -> &'static str {
    match kind {
        Kind::List => "List",
        Kind::Empty => "Empty",
        Kind::Assignment => "Assignment",
        Kind::Command => "Command",
        Kind::Update => "Update",
    }
}

fn push_conditions(conditions: &Conditions, out: &mut String) -> Result<(), NoMemory> {
    push_condition("Start", &conditions.start, true, out)?;
    push_condition("End", &conditions.end, true, out)?;
    push_condition("Exit", &conditions.exit, false, out)?;
    push_condition("Skip", &conditions.skip, false, out)?;
    push_condition("Repeat", &conditions.repeat, false, out)?;
    push_condition("Pre", &conditions.pre, true, out)?;
    push_condition("Post", &conditions.post, true, out)?;
    push_condition("Invariant", &conditions.invariant, true, out)
}

// A condition, but for the literal that it mostly is.
fn push_condition(
    word: &str,
    condition: &Expr,
    mostly: bool,
    out: &mut String,
) -> Result<(), NoMemory> {
    if is_truth(condition, mostly) {
        return Ok(());
    }
    push_all(&["; ", word, " "], out)?;
    push_expr(condition, out)
}

fn is_truth(expr: &Expr, truth: bool) -> bool {
    match expr {
        Expr::Literal(Value::Boolean(value)) => *value == truth,
        _ => false,
    }
}
