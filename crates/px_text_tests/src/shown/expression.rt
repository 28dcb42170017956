// Expressions: what a tree begins with, its parts, and what it ends with.
use super::literal::{push_literal, push_name, push_word};
use super::word::{
    attribute_word, binary_sign, binary_word, enumerated_word, look_word, unary_sign, unary_word,
};
use itoa::Buffer;
use px_syntax::{NodeReference, SurfaceExpr, Tolerance};
use px_value::NoMemory;

/// An expression, with parentheses round each operation.
pub(crate) fn push_expr(tree: &SurfaceExpr, out: &mut String) -> Result<(), NoMemory> {
    push_head(tree, out)?;
    match tree {
        SurfaceExpr::Element { index, .. } => push_expr(index, out)?,
        SurfaceExpr::Look {
            args,
            tolerance,
            ..
        } => {
            for arg in args {
                out.push_str(" ")?;
                push_expr(arg, out)?;
            }
            push_tolerance(*tolerance, out)?;
        }
        SurfaceExpr::UnaryCall { argument, .. } => push_expr(argument, out)?,
        SurfaceExpr::BinaryCall { first, second, .. } => {
            push_expr(first, out)?;
            out.push_str(" ")?;
            push_expr(second, out)?;
        }
        SurfaceExpr::Unary { operand, .. } => push_expr(operand, out)?,
        SurfaceExpr::Binary {
            operator,
            left,
            right,
        } => {
            push_expr(left, out)?;
            out.push_str(binary_sign(*operator))?;
            push_expr(right, out)?;
        }
        _ => {}
    }
    out.push_str(end_of(tree))
}

fn push_head(tree: &SurfaceExpr, out: &mut String) -> Result<(), NoMemory> {
    match tree {
        SurfaceExpr::Literal { value, token } => push_literal("", value, *token, out),
        SurfaceExpr::Enumerated { value, token } => {
            push_word("", enumerated_word(*value), *token, "", out)
        }
        SurfaceExpr::Variable(name) => push_name("", name, "", out),
        SurfaceExpr::Element { array, .. } => push_name("", array, "[", out),
        SurfaceExpr::Attribute { node, attribute } => {
            push_node(node, attribute_word(*attribute), out)
        }
        SurfaceExpr::Look {
            word,
            token,
            name,
            ..
        } => {
            push_word("", look_word(*word), *token, "<", out)?;
            push_name("", name, "", out)
        }
        SurfaceExpr::UnaryCall {
            function,
            token,
            ..
        } => push_word("", unary_word(*function), *token, "<", out),
        SurfaceExpr::BinaryCall {
            function,
            token,
            ..
        } => push_word("", binary_word(*function), *token, "<", out),
        SurfaceExpr::Unary {
            operator,
            token,
            ..
        } => push_word("", unary_sign(*operator), *token, " ", out),
        SurfaceExpr::Binary { .. } => out.push_str("("),
    }
}

fn end_of(tree: &SurfaceExpr) -> &'static str {
    match tree {
        SurfaceExpr::Element { .. } => "]",
        SurfaceExpr::Look { .. } => ">",
        SurfaceExpr::UnaryCall { .. } => ">",
        SurfaceExpr::BinaryCall { .. } => ">",
        SurfaceExpr::Unary { .. } => ")",
        SurfaceExpr::Binary { .. } => ")",
        _ => "",
    }
}

fn push_tolerance(tolerance: Option<Tolerance>, out: &mut String) -> Result<(), NoMemory> {
    let Some(Tolerance { distance, token }) = tolerance else {
        return Ok(());
    };
    push_word("~", Buffer::new().format(distance), token, "", out)
}

// A node, and what stands behind it.
fn push_node(node: &NodeReference, end: &str, out: &mut String) -> Result<(), NoMemory> {
    match node {
        NodeReference::Named(name) => push_name("", name, end, out),
        NodeReference::SelfNode(token) => push_word("", "Self", *token, end, out),
        NodeReference::Parent(token) => push_word("", "Parent", *token, end, out),
        NodeReference::Sibling(token, name) => {
            push_word("", "Sibling", *token, "(", out)?;
            push_name("", name, ")", out)?;
            out.push_str(end)
        }
        NodeReference::Child(token, name) => {
            push_word("", "Child", *token, "(", out)?;
            push_name("", name, ")", out)?;
            out.push_str(end)
        }
    }
}
