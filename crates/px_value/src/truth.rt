// The logical operations, which are Kleene's connectives.
ghost use Rattle.std.specs.Prelude.{◌≡◌};
ghost use Rattle.px_value.specs.Truth.{truth_of, value_of_truth, value_and, value_or, value_xor, value_not};

use crate::value::Value;

/// The truth of a value: none where it is no Boolean.
fn truth_of(value: &Value) -> Option<bool>
    ensures { result ≡ truth_of value.now }
{
    match value {
        Value::Boolean(truth) => Some(*truth),
        _ => None,
    }
}

/// UNKNOWN where there is no truth.
pub(crate) fn value_of_truth(truth: Option<bool>) -> Value
    ensures { result ≡ value_of_truth truth }
{
    match truth {
        Some(truth) => Value::Boolean(truth),
        None => Value::Unknown,
    }
}

/// False where one side is false, true where both are true, else UNKNOWN (PLEXIL reference manual,
/// "Expressions"). A side that is no Boolean counts as UNKNOWN.
pub fn and(a: &Value, b: &Value) -> Value
    ensures { result ≡ value_and a.now b.now }
{
    match (truth_of(a), truth_of(b)) {
        (Some(false), _) | (_, Some(false)) => Value::Boolean(false),
        (Some(true), Some(true)) => Value::Boolean(true),
        _ => Value::Unknown,
    }
}

/// True where one side is true, false where both are false, else UNKNOWN. A side that is no Boolean
/// counts as UNKNOWN.
pub fn or(a: &Value, b: &Value) -> Value
    ensures { result ≡ value_or a.now b.now }
{
    match (truth_of(a), truth_of(b)) {
        (Some(true), _) | (_, Some(true)) => Value::Boolean(true),
        (Some(false), Some(false)) => Value::Boolean(false),
        _ => Value::Unknown,
    }
}

/// Whether the sides differ; UNKNOWN where one is no Boolean.
pub fn xor(a: &Value, b: &Value) -> Value
    ensures { result ≡ value_xor a.now b.now }
{
    match (truth_of(a), truth_of(b)) {
        (Some(a), Some(b)) => Value::Boolean(a != b),
        _ => Value::Unknown,
    }
}

/// The other truth; UNKNOWN of what is no Boolean.
pub fn not(a: &Value) -> Value
    ensures { result ≡ value_not a.now }
{
    value_of_truth(truth_of(a).map(|truth| !truth))
}
