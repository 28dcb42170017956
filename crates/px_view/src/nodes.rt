// The command `nodes`.
use crate::terms::{push_args, push_expr, push_index};
use px_chart::{NodePath, paths_of};
use px_core::{BinaryOp, Body, Expr, Plan, Target, UnaryOp};
use px_pen::Pen;
use px_value::{CompareOp, NoMemory, Value};
use std::alloc::Global;

/// How many characters of a condition are shown.
const SHOWN: usize = 240;

/// Lists the nodes of a plan whose paths have a word in them.
pub fn list_nodes(alloc: Global, plan: &Plan, like: &str, out: &mut Pen) -> Result<(), NoMemory> {
    for node in &paths_of(alloc, plan)? {
        if node.path.as_str().contains(like) {
            push_node(alloc, node, out);
        }
    }
    if out.is_empty() {
        out.fill("no path has `{}` in it\n", like);
    }
    Ok(())
}

fn push_node(alloc: Global, node: &NodePath<'_>, out: &mut Pen) {
    push_blanks(node.depth, out);
    out.fill("{}: ", node.path.as_str());
    out.push(node.a_kind());
    push_body(&node.node.body, out);
    out.push("\n");
    push_conditions(alloc, node, out);
    push_lines(node, out);
}

fn push_blanks(levels: usize, out: &mut Pen) {
    for _ in 0..levels {
        out.push("  ");
    }
}

fn push_body(body: &Body, out: &mut Pen) {
    match body {
        Body::Nothing => {}
        Body::Assign { target, value } => {
            out.push(", ");
            push_target(target, out);
            push_expr(value, out);
        }
        Body::Command { name, args, result } => {
            out.push(", ");
            if let Some(target) = result {
                push_target(target, out);
            }
            out.push(name.as_str());
            push_args(args, out);
        }
        Body::Update { pairs } => {
            for (place, pair) in pairs.iter().enumerate() {
                out.push(if place == 0 { " of " } else { ", " });
                out.fill("{} = ", pair.name.as_str());
                push_expr(&pair.value, out);
            }
        }
    }
}

// Writes what is assigned to, and the sign.
fn push_target(target: &Target, out: &mut Pen) {
    out.push(target.name.as_str());
    if let Some(index) = &target.index {
        push_index(index, out);
    }
    out.push(" = ");
}

fn is_truth(expr: &Expr, truth: bool) -> bool {
    match expr {
        Expr::Literal(Value::Boolean(value)) => *value == truth,
        _ => false,
    }
}

// What it waits for, and the other conditions that are given.
fn push_conditions(alloc: Global, node: &NodePath<'_>, out: &mut Pen) {
    let given = &node.node.conditions;
    push_condition(alloc, node, "waits for", &given.start, true, out);
    push_condition(alloc, node, "is skipped where", &given.skip, false, out);
    push_condition(alloc, node, "begins only where", &given.pre, true, out);
    push_condition(alloc, node, "needs meanwhile", &given.invariant, true, out);
    if !is_usual_end(&given.end) {
        push_condition(alloc, node, "ends where", &given.end, true, out);
    }
    push_condition(alloc, node, "is interrupted where", &given.exit, false, out);
    push_condition(alloc, node, "has succeeded where", &given.post, true, out);
    push_condition(alloc, node, "begins again where", &given.repeat, false, out);
}

fn push_condition(
    alloc: Global,
    node: &NodePath<'_>,
    says: &str,
    condition: &Expr,
    default: bool,
    out: &mut Pen,
) {
    if is_truth(condition, default) {
        return;
    }
    push_margin(node, out);
    out.fill("{} ", says);
    let mut whole = Pen::new(alloc);
    push_expr(condition, &mut whole);
    out.append_front(&whole, SHOWN, " ..");
    out.push("\n");
}

// Whether a node ends as those of its kind do where nothing else is said: its command's handle is known, its update is
// acknowledged, or its children have finished.
fn is_usual_end(end: &Expr) -> bool {
    match end {
        Expr::Acknowledged(_) => true,
        Expr::Unary {
            op: UnaryOp::IsKnown,
            arg,
        } => matches!(**arg, Expr::HandleOf(_)),
        Expr::Binary {
            op: BinaryOp::And,
            left,
            right,
        } => is_usual_end(left) && is_usual_end(right),
        Expr::Binary {
            op: BinaryOp::Compare(CompareOp::Equal),
            left,
            ..
        } => matches!(**left, Expr::StateOf(_)),
        _ => false,
    }
}

fn push_margin(node: &NodePath<'_>, out: &mut Pen) {
    push_blanks(node.depth.saturating_add(2), out);
}

// The lines that a script may have for the node.
fn push_lines(node: &NodePath<'_>, out: &mut Pen) {
    match &node.node.body {
        Body::Command { result, .. } => {
            push_line(node, "script: handle {} COMMAND_SUCCESS\n", out);
            if result.is_some() {
                push_line(node, "script: return {} VALUE\n", out);
            }
            push_line(node, "script: abort {}\n", out);
        }
        Body::Update { .. } => push_line(node, "script: ack {}\n", out),
        Body::Nothing | Body::Assign { .. } => {}
    }
}

fn push_line(node: &NodePath<'_>, line: &str, out: &mut Pen) {
    push_margin(node, out);
    out.fill(line, node.path.as_str());
}
