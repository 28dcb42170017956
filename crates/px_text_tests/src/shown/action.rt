// What the actions of a block do.
use super::expression::push_expr;
use super::literal::{push_all, push_name, push_word};
use super::push_label;
use super::word::form_word;
use itoa::Buffer;
use px_syntax::{Block, Body, Branch, Call, Guarded, Pair, Target};
use px_value::NoMemory;

pub(super) fn push_action(body: &Body, out: &mut String) -> Result<(), NoMemory> {
    match body {
        Body::Block(block) => push_inner(block, out),
        Body::Assign { target, value } => {
            push_target(target, out)?;
            push_expr(value, out)
        }
        Body::CallInto { target, call } => {
            push_target(target, out)?;
            push_call(call, out)
        }
        Body::Call(call) => push_call(call, out),
        Body::Update { token, pairs } => push_update(*token, pairs, out),
        Body::If {
            first,
            others,
            otherwise,
        } => push_if(first, others, otherwise, out),
        Body::While(guarded) => push_guarded("while(", guarded, out),
        Body::For {
            variable,
            first,
            test,
            step,
            branch,
        } => {
            push_name("for ", variable, "=", out)?;
            push_all(&[Buffer::new().format(*first), " "], out)?;
            push_expr(test, out)?;
            out.push_str(" ")?;
            push_expr(step, out)?;
            out.push_str(" ")?;
            push_branch(branch, out)
        }
    }
}

fn push_target(target: &Target, out: &mut String) -> Result<(), NoMemory> {
    match &target.index {
        Some(index) => {
            push_name("", &target.name, "[", out)?;
            push_expr(index, out)?;
            out.push_str("]=")
        }
        None => push_name("", &target.name, "=", out),
    }
}

fn push_call(call: &Call, out: &mut String) -> Result<(), NoMemory> {
    push_name("", &call.name, "(", out)?;
    for arg in &call.args {
        push_expr(arg, out)?;
        out.push_str(",")?;
    }
    out.push_str(")")
}

fn push_update(token: usize, pairs: &[Pair], out: &mut String) -> Result<(), NoMemory> {
    push_word("", "Update", token, "", out)?;
    for pair in pairs {
        push_name(" ", &pair.name, "=", out)?;
        push_expr(&pair.value, out)?;
    }
    Ok(())
}

fn push_if(
    first: &Guarded,
    others: &[Guarded],
    otherwise: &Option<Branch>,
    out: &mut String,
) -> Result<(), NoMemory> {
    push_guarded("if(", first, out)?;
    for other in others {
        push_guarded(" elseif(", other, out)?;
    }
    match otherwise {
        Some(branch) => {
            out.push_str(" else ")?;
            push_branch(branch, out)
        }
        None => Ok(()),
    }
}

fn push_guarded(word: &str, guarded: &Guarded, out: &mut String) -> Result<(), NoMemory> {
    out.push_str(word)?;
    push_expr(&guarded.test, out)?;
    out.push_str(") ")?;
    push_branch(&guarded.branch, out)
}

fn push_branch(branch: &Branch, out: &mut String) -> Result<(), NoMemory> {
    push_label(&branch.label, out)?;
    push_inner(&branch.block, out)
}

// A block inside another, by how many items and actions it has.
fn push_inner(block: &Block, out: &mut String) -> Result<(), NoMemory> {
    push_all(&[form_word(block.form), "{"], out)?;
    push_all(&[Buffer::new().format(block.items.len()), "|"], out)?;
    push_all(&[Buffer::new().format(block.actions.len()), "}"], out)
}
