// Expressions.
ghost use Rattle.std.specs.Prelude.{◌≡◌, ◌++◌, flat_map, map, OnOk};
ghost use Rattle.px_syntax.specs.Expr.{term_of, in_turn};
ghost use Rattle.px_print.specs.ExprLayout.{term_text, arguments_text, as_optional, operand_text};

use crate::append::push_all;
use crate::leaf::{push_attribute, push_literal, push_name, push_tolerance};
use crate::word::{
    binary_function_word, enumerated_word, look_word, spaced_sign, unary_function_word, unary_sign,
};
use px_syntax::SurfaceExpr;
use px_value::NoMemory;

/// Appends an expression, with each operand that is itself an operation in parentheses.
#[cycle(expression)]
pub(crate) fn push_expression(term: &SurfaceExpr, out: &mut Vec<u8>) -> Result<(), NoMemory>
    ensures { OnOk result (out.new.items ≡ out.old.items ++ term_text (term_of term.now)) }
{
    match term {
        SurfaceExpr::Literal { value, .. } => push_literal(value, out),
        SurfaceExpr::Enumerated { value, .. } => push_all(out, &[enumerated_word(*value)]),
        SurfaceExpr::Variable(name) => push_name(name, out),
        SurfaceExpr::Element { array, index } => {
            push_between(&[array.name.as_str(), "["], index, "]", out)
        }
        SurfaceExpr::Attribute { node, attribute } => push_attribute(node, *attribute, out),
        SurfaceExpr::Look {
            word,
            name,
            args,
            tolerance,
            ..
        } => {
            push_all(out, &[look_word(*word), "("])?;
            push_name(name, out)?;
            push_optional(args, out)?;
            push_tolerance(*tolerance, out)?;
            push_all(out, &[")"])
        }
        SurfaceExpr::UnaryCall {
            function,
            argument,
            ..
        } => push_between(&[unary_function_word(*function), "("], argument, ")", out),
        SurfaceExpr::BinaryCall {
            function,
            first,
            second,
            ..
        } => {
            push_between(&[binary_function_word(*function), "("], first, ", ", out)?;
            push_between(&[], second, ")", out)
        }
        SurfaceExpr::Unary {
            operator,
            operand,
            ..
        } => {
            push_all(out, &[unary_sign(*operator)])?;
            push_operand(operand, out)
        }
        SurfaceExpr::Binary {
            operator,
            left,
            right,
        } => {
            push_operand(left, out)?;
            push_all(out, &[spaced_sign(*operator)])?;
            push_operand(right, out)
        }
    }
}

#[cycle(expression)]
fn push_operand(operand: &SurfaceExpr, out: &mut Vec<u8>) -> Result<(), NoMemory>
    ensures { OnOk result (out.new.items ≡ out.old.items ++ operand_text (term_of operand.now)) }
{
    match operand {
        SurfaceExpr::Unary { .. } | SurfaceExpr::Binary { .. } => {
            push_between(&["("], operand, ")", out)
        }
        _ => push_expression(operand, out),
    }
}

/// Appends an expression, with texts before it and one behind it.
#[cycle(expression)]
fn push_between(
    before: &[&str],
    term: &SurfaceExpr,
    behind: &str,
    out: &mut Vec<u8>,
) -> Result<(), NoMemory>
    ensures { OnOk result (out.new.items ≡ out.old.items
        ++ (flat_map (λ part. part.now) before.now ++ (term_text (term_of term.now) ++ behind.now))) }
{
    push_all(out, before)?;
    push_expression(term, out)?;
    push_all(out, &[behind])
}

/// Appends the arguments of a lookup in parentheses, where it has any.
#[cycle(expression)]
fn push_optional(args: &[SurfaceExpr], out: &mut Vec<u8>) -> Result<(), NoMemory>
    ensures { OnOk result (out.new.items ≡ out.old.items
        ++ as_optional (in_turn (map term_of args.now)) (arguments_text (in_turn (map term_of args.now)))) }
{
    if args.is_empty() {
        return Ok(());
    }
    push_all(out, &["("])?;
    push_arguments(args, out)?;
    push_all(out, &[")"])
}

/// Appends expressions with commas between them.
#[cycle(expression)]
pub(crate) fn push_arguments(args: &[SurfaceExpr], out: &mut Vec<u8>) -> Result<(), NoMemory>
    ensures { OnOk result (out.new.items ≡ out.old.items ++ arguments_text (in_turn (map term_of args.now))) }
{
    for (place, arg) in args.iter().enumerate() {
        if place > 0 {
            push_all(out, &[", "])?;
        }
        push_expression(arg, out)?;
    }
    Ok(())
}
