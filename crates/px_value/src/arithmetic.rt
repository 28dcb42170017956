// The integer operations, and the sum, which also joins texts.
ghost use Rattle.std.specs.Prelude.{◌≡◌, IfOk};
ghost use Rattle.px_value.specs.Arithmetic.{integer_of, value_arith, value_add};

use crate::text::{TEXT_LIMIT, Text};
use crate::value::Value;
use std::alloc::{AllocError, Global};

/// The operations that take two Integers (PLEXIL reference manual, "Expressions").
#[derive(Clone, Copy, Debug, PartialEq, Eq)]
pub enum ArithOp {
    /// `-`
    Minus,
    /// `*`
    Times,
    /// `/`, which rounds toward zero
    Over,
    /// `%`, which has the dividend's sign
    Rest,
    /// `min`
    Min,
    /// `max`
    Max,
}

/// The number that a checked operation gives, as a value; UNKNOWN where it gives none.
fn integer_or_unknown(number: Option<i32>) -> Value
    ensures { result ≡ integer_of number }
{
    match number {
        Some(number) => Value::Integer(number),
        None => Value::Unknown,
    }
}

fn of_integers(op: ArithOp, a: i32, b: i32) -> Value
    ensures { result ≡ value_arith op (Value.Integer a) (Value.Integer b) }
{
    match op {
        ArithOp::Minus => integer_or_unknown(a.checked_sub(b)),
        ArithOp::Times => integer_or_unknown(a.checked_mul(b)),
        ArithOp::Over => integer_or_unknown(a.checked_div(b)),
        // The least Integer divided by -1 has the rest 0, though the quotient doesn't fit.
        ArithOp::Rest if b != 0 => Value::Integer(a.wrapping_rem(b)),
        ArithOp::Rest => Value::Unknown,
        ArithOp::Min => Value::Integer(a.min(b)),
        ArithOp::Max => Value::Integer(a.max(b)),
    }
}

/// The result of an integer operation.
///
/// It is UNKNOWN where it doesn't fit 32 bits, where a divisor is 0, and where an operand is no
/// Integer.
pub fn arith(op: ArithOp, a: &Value, b: &Value) -> Value
    ensures { result ≡ value_arith op a.now b.now }
{
    match (a, b) {
        (Value::Integer(a), Value::Integer(b)) => of_integers(op, *a, *b),
        _ => Value::Unknown,
    }
}

/// The sum of two Integers, or two texts joined.
///
/// It is UNKNOWN where a sum doesn't fit 32 bits, where a text would have over 1,024 bytes, and for
/// every other pair of operands.
pub fn add(alloc: Global, a: &Value, b: &Value) -> Result<Value, AllocError>
    ensures { IfOk result (λ sum. sum ≡ value_add a.now b.now) }
{
    match (a, b) {
        (Value::Integer(a), Value::Integer(b)) => Ok(integer_or_unknown(a.checked_add(*b))),
        (Value::Text(a), Value::Text(b)) => {
            if a.as_str().len() + b.as_str().len() <= TEXT_LIMIT {
                Ok(Value::Text(a.followed_by(alloc, b)?))
            } else {
                Ok(Value::Unknown)
            }
        }
        _ => Ok(Value::Unknown),
    }
}
