// The operations of one operand, and of two.
ghost use Rattle.std.specs.Prelude.{◌≡◌, IfOk};
ghost use Rattle.std.specs.Cow.{cow_value};
ghost use Rattle.px_core.specs.declared.expr.UnaryOp.TheVariants as operators;
ghost use Rattle.px_sem.specs.Expressions.{value_length, unary_value, binary_value};

use crate::lent::read;
use px_core::{BinaryOp, UnaryOp};
use px_value::{ArithOp, NoMemory, Value, add, and, arith, compare, not, or, xor};
use std::alloc::Global;
use std::borrow::Cow;

// The number of bytes of a text.
fn length(value: &Value) -> Value
    ensures { result ≡ value_length value.now }
{
    match value {
        Value::Text(text) => Value::Integer(text.as_str().len() as i32),
        _ => Value::Unknown,
    }
}

fn negated(value: &Value) -> Value
    ensures { result ≡ unary_value operators.Minus value.now }
{
    arith(ArithOp::Minus, &Value::Integer(0), value)
}

fn unary_value(op: UnaryOp, value: &Value) -> Value
    ensures { result ≡ unary_value op value.now }
{
    match op {
        UnaryOp::Not => not(value),
        UnaryOp::Minus => negated(value),
        UnaryOp::IsKnown => Value::Boolean(value.is_known()),
        UnaryOp::Abs => arith(ArithOp::Max, value, &negated(value)),
        UnaryOp::Length => length(value),
    }
}

fn binary_value(alloc: Global, op: BinaryOp, left: &Value, right: &Value) -> Result<Value, NoMemory>
    ensures { IfOk result (λ value. value ≡ binary_value op left.now right.now) }
{
    Ok(match op {
        BinaryOp::And => and(left, right),
        BinaryOp::Or => or(left, right),
        BinaryOp::Xor => xor(left, right),
        BinaryOp::Compare(op) => compare(op, left, right),
        BinaryOp::Add => add(alloc, left, right)?,
        BinaryOp::Arith(op) => arith(op, left, right),
    })
}

/// An operation of one operand.
pub fn unary(op: UnaryOp, arg: Cow<'_, Value>) -> Value
    ensures { result ≡ unary_value op (cow_value arg.entry) }
{
    unary_value(op, read(&arg))
}

/// An operation of two operands.
pub fn binary(
    alloc: Global,
    op: BinaryOp,
    left: Cow<'_, Value>,
    right: Cow<'_, Value>,
) -> Result<Value, NoMemory>
    ensures { IfOk result (λ value. value ≡ binary_value op (cow_value left.entry) (cow_value right.entry)) }
{
    binary_value(alloc, op, read(&left), read(&right))
}
