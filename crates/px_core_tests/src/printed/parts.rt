// The variables of a node, and what it does.
use super::expression::{push_expr, push_exprs};
use super::value::{push_all, push_value};
use itoa::Buffer;
use px_core::{Body, Pair, Target, VarKind, Variable};
use px_value::NoMemory;

pub(super) fn push_variable(variable: &Variable, out: &mut String) -> Result<(), NoMemory> {
    out.push_str(type_word(variable.kind))?;
    push_all(&[" ", variable.name.as_str()], out)?;
    if let Some(size) = variable.size {
        push_all(&["[", Buffer::new().format(size), "]"], out)?;
    }
    if !variable.init.is_empty() {
        out.push_str(" =")?;
    }
    for value in &variable.init {
        out.push_str(" ")?;
        push_value(value, out)?;
    }
    Ok(())
}

fn type_word(kind: VarKind) -> &'static str {
    match kind {
        VarKind::Boolean => "Boolean",
        VarKind::Integer => "Integer",
        VarKind::Text => "String",
    }
}

pub(super) fn push_action(body: &Body, out: &mut String) -> Result<(), NoMemory> {
    match body {
        Body::Nothing => Ok(()),
        Body::Assign { target, value } => {
            push_target("; ", target, out)?;
            push_expr(value, out)
        }
        Body::Command { name, args, result } => {
            match result {
                Some(target) => push_target("; ", target, out)?,
                None => out.push_str("; ")?,
            }
            push_all(&[name.as_str(), "("], out)?;
            push_exprs(args, out)?;
            out.push_str(")")
        }
        Body::Update { pairs } => {
            out.push_str("; Update ")?;
            push_pairs(pairs, out)
        }
    }
}

// What is written, behind some text and with the sign behind it.
fn push_target(front: &str, target: &Target, out: &mut String) -> Result<(), NoMemory> {
    out.push_str(front)?;
    push_all(&[target.owner.as_str(), ":", target.name.as_str()], out)?;
    match &target.index {
        Some(index) => {
            out.push_str("[")?;
            push_expr(index, out)?;
            out.push_str("] = ")
        }
        None => out.push_str(" = "),
    }
}

fn push_pairs(pairs: &[Pair], out: &mut String) -> Result<(), NoMemory> {
    let [first, rest @ ..] = pairs else {
        return Ok(());
    };
    push_pair(first, out)?;
    for pair in rest {
        out.push_str(", ")?;
        push_pair(pair, out)?;
    }
    Ok(())
}

fn push_pair(pair: &Pair, out: &mut String) -> Result<(), NoMemory> {
    push_all(&[pair.name.as_str(), " = "], out)?;
    push_expr(&pair.value, out)
}
