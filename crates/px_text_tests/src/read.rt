// What is read of a text, and for what it is refused.
use crate::row::Part;
use crate::shown::{push_expr, push_plan};
use px_expr_parse::parse_expr;
use px_lex::{Token, lex};
use px_plan_parse::{first_too_deep, parse};
use px_syntax::{ParseFault, SurfaceExpr};
use px_value::NoMemory;
use std::alloc::Global;

/// The tree of a part of a text, or why it has none.
pub(crate) fn read(alloc: Global, text: &str, part: Part) -> Result<String, NoMemory> {
    let tokens = match lex(alloc, text) {
        Ok(tokens) => tokens,
        Err(fault) => return format!(in alloc; "{fault}"),
    };
    let tree = match part {
        Part::Expression { from } => expression(alloc, &tokens, from),
        Part::Plan => plan(alloc, &tokens),
    };
    drop(tokens);
    tree
}

fn expression(alloc: Global, tokens: &[Token], from: usize) -> Result<String, NoMemory> {
    if from > tokens.len() {
        return format!(in alloc; "no token {from}");
    }
    if let Some(token) = first_too_deep(tokens) {
        return format!(in alloc; "{}", ParseFault::Deep { token });
    }
    match parse_expr(alloc, tokens, from) {
        Ok((tree, end)) => {
            let shown = shown_to(alloc, &tree, end);
            // By name, here and below: the proof then doesn't follow each shape that a tree may have on the way out.
            drop(tree);
            shown
        }
        Err(fault) => format!(in alloc; "{fault}"),
    }
}

// The tree, and the number of the token behind it.
fn shown_to(alloc: Global, tree: &SurfaceExpr, end: usize) -> Result<String, NoMemory> {
    let mut out = String::new(alloc);
    push_expr(tree, &mut out)?;
    out.push_str(format!(in alloc; " {end}")?.as_str())?;
    Ok(out)
}

fn plan(alloc: Global, tokens: &[Token]) -> Result<String, NoMemory> {
    match parse(alloc, tokens) {
        Ok(plan) => {
            let mut out = String::new(alloc);
            let shown = push_plan(&plan, &mut out);
            drop(plan);
            shown?;
            Ok(out)
        }
        Err(fault) => format!(in alloc; "{fault}"),
    }
}
