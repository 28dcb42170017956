// Expressions as texts that tell them.
//
// | Text | Expression |
// |---|---|
// | `P:x`, `P:a[E]` | the variable x, and an element of the array a, of the node P |
// | `P.state`, `P.outcome`, `P.failure`, `P.command_handle`, `ack(P)` | what is known of the node P |
// | `Lookup(name)`, `Lookup(name(E, E))` | a lookup, with each of the three words |
// | `(E && E)` | an operation, with the signs of the language in parentheses |
// | `!E`, `-(E)`, `isKnown(E)`, `abs(E)`, `strlen(E)`, `min(E, E)`, `max(E, E)` | the other operations |
// | `d(P)` | `(P.state == FINISHED)` |
// | `f(P)`, `w(P)` | `(d(P) && (P.outcome == FAILURE))`, `(d(P) && (P.outcome == SUCCESS))` |
//
// The short forms of the last two lines stand wherever there is such an expression. A literal is spelled as in a plan.
mod short;
mod signs;

use super::value::{push_all, push_value};
use itoa::Buffer;
use px_core::{Expr, LookWord};
use px_value::{Name, NoMemory, Outcome, Path};
use short::{ended, finished};
use signs::{before_one, before_two, behind_one, between, look_word};

#[cycle(push)]
pub(super) fn push_expr(expr: &Expr, out: &mut String) -> Result<(), NoMemory> {
    if push_short(expr, out)? {
        return Ok(());
    }
    push_front(expr, out)?;
    match expr {
        Expr::Cell { index, .. } => push_expr(index, out)?,
        Expr::Look { args, .. } => push_exprs(args, out)?,
        Expr::Unary { arg, .. } => push_expr(arg, out)?,
        Expr::Binary { op, left, right } => {
            push_expr(left, out)?;
            out.push_str(between(*op))?;
            push_expr(right, out)?;
        }
        _ => {}
    }
    push_end(expr, out)
}

/// Expressions with commas between them.
#[cycle(push)]
pub(super) fn push_exprs(exprs: &[Expr], out: &mut String) -> Result<(), NoMemory> {
    let [first, rest @ ..] = exprs else {
        return Ok(());
    };
    push_expr(first, out)?;
    for expr in rest {
        out.push_str(", ")?;
        push_expr(expr, out)?;
    }
    Ok(())
}

// The short form of an expression, and whether it has one.
fn push_short(expr: &Expr, out: &mut String) -> Result<bool, NoMemory> {
    if let Some(path) = finished(expr) {
        push_all(&["d(", path.as_str(), ")"], out)?;
    } else if let Some(path) = ended(expr, Outcome::Failure) {
        push_all(&["f(", path.as_str(), ")"], out)?;
    } else if let Some(path) = ended(expr, Outcome::Success) {
        push_all(&["w(", path.as_str(), ")"], out)?;
    } else {
        return Ok(false);
    }
    Ok(true)
}

// What stands before the expressions in an expression; of one without any, all of it.
fn push_front(expr: &Expr, out: &mut String) -> Result<(), NoMemory> {
    match expr {
        Expr::Literal(value) => push_value(value, out),
        Expr::Var { owner, name } => push_variable_of(owner, name, "", out),
        Expr::Cell { owner, name, .. } => push_variable_of(owner, name, "[", out),
        Expr::StateOf(path) => push_all(&[path.as_str(), ".state"], out),
        Expr::OutcomeOf(path) => push_all(&[path.as_str(), ".outcome"], out),
        Expr::FailureOf(path) => push_all(&[path.as_str(), ".failure"], out),
        Expr::HandleOf(path) => push_all(&[path.as_str(), ".command_handle"], out),
        Expr::Acknowledged(path) => push_all(&["ack(", path.as_str(), ")"], out),
        Expr::Look {
            word,
            name,
            args,
            ..
        } => push_look(*word, name, args, out),
        Expr::Unary { op, .. } => out.push_str(before_one(*op)),
        Expr::Binary { op, .. } => out.push_str(before_two(*op)),
    }
}

// What stands behind them.
fn push_end(expr: &Expr, out: &mut String) -> Result<(), NoMemory> {
    match expr {
        Expr::Cell { .. } => out.push_str("]"),
        Expr::Look {
            args,
            tolerance,
            ..
        } => push_look_end(args, *tolerance, out),
        Expr::Unary { op, .. } => out.push_str(behind_one(*op)),
        Expr::Binary { .. } => out.push_str(")"),
        _ => Ok(()),
    }
}

fn push_variable_of<'a>(
    owner: &'a Path,
    name: &'a Name,
    end: &str,
    out: &mut String,
) -> Result<(), NoMemory> {
    push_all(&[owner.as_str(), ":", name.as_str()], out)?;
    out.push_str(end)
}

fn push_look(word: LookWord, name: &Name, args: &[Expr], out: &mut String) -> Result<(), NoMemory> {
    out.push_str(look_word(word))?;
    push_all(&["(", name.as_str()], out)?;
    if args.is_empty() {
        return Ok(());
    }
    out.push_str("(")
}

fn push_look_end(args: &[Expr], tolerance: Option<u32>, out: &mut String) -> Result<(), NoMemory> {
    if !args.is_empty() {
        out.push_str(")")?;
    }
    if let Some(distance) = tolerance {
        push_all(&[" within ", Buffer::new().format(distance)], out)?;
    }
    out.push_str(")")
}
