// The six comparisons.
ghost use Rattle.std.specs.Prelude.{◌≡◌};
ghost use Rattle.px_value.specs.Comparison.{sameness, value_compare};

use crate::truth::value_of_truth;
use crate::value::Value;

/// The comparisons (PLEXIL reference manual, "Expressions").
#[derive(Clone, Copy, Debug, PartialEq, Eq)]
pub enum CompareOp {
    /// `==`
    Equal,
    /// `!=`
    Differs,
    /// `<`
    Less,
    /// `<=`
    AtMost,
    /// `>`
    Greater,
    /// `>=`
    AtLeast,
}

/// Whether two values of one type are the same; none where one is UNKNOWN or their types differ.
fn sameness(a: &Value, b: &Value) -> Option<bool>
    ensures { result ≡ sameness a.now b.now }
{
    match (a, b) {
        (Value::Boolean(a), Value::Boolean(b)) => Some(a == b),
        (Value::Integer(a), Value::Integer(b)) => Some(a == b),
        (Value::Text(a), Value::Text(b)) => Some(a == b),
        (Value::State(a), Value::State(b)) => Some(a == b),
        (Value::Outcome(a), Value::Outcome(b)) => Some(a == b),
        (Value::Failure(a), Value::Failure(b)) => Some(a == b),
        (Value::Handle(a), Value::Handle(b)) => Some(a == b),
        _ => None,
    }
}

/// The truth of the comparison.
///
/// `Equal` and `Differs` compare any two values of one type, the others Integers. Everything else
/// is UNKNOWN.
pub fn compare(op: CompareOp, a: &Value, b: &Value) -> Value
    ensures { result ≡ value_compare op a.now b.now }
{
    match (op, a, b) {
        (CompareOp::Equal, a, b) => value_of_truth(sameness(a, b)),
        (CompareOp::Differs, a, b) => value_of_truth(sameness(a, b).map(|same| !same)),
        (CompareOp::Less, Value::Integer(a), Value::Integer(b)) => Value::Boolean(a < b),
        (CompareOp::AtMost, Value::Integer(a), Value::Integer(b)) => Value::Boolean(a <= b),
        (CompareOp::Greater, Value::Integer(a), Value::Integer(b)) => Value::Boolean(a > b),
        (CompareOp::AtLeast, Value::Integer(a), Value::Integer(b)) => Value::Boolean(a >= b),
        _ => Value::Unknown,
    }
}
