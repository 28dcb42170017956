// What a variable, a condition or a lookup holds.
ghost use Rattle.std.specs.Prelude.{◌≡◌, IfOk};

use crate::enums::{Failure, Handle, NodeState, Outcome};
use crate::text::Text;
use std::alloc::{AllocError, Global};

/// A value of a plan, with UNKNOWN among them (PLEXIL reference manual, "Expressions").
#[derive(Debug, Drop, PartialEq, Eq, Hash)]
pub enum Value {
    Unknown,
    Boolean(bool),
    Integer(i32),
    Text(Text),
    State(NodeState),
    Outcome(Outcome),
    Failure(Failure),
    Handle(Handle),
}

impl Value {
    ghost use Rattle.px_value.specs.Value.{is_known};

    /// Whether the value isn't UNKNOWN.
    pub fn is_known(&self) -> bool
        ensures { result ≡ is_known self.now }
    {
        !matches!(self, Value::Unknown)
    }

    /// An equal value.
    pub fn copy(&self, alloc: Global) -> Result<Value, AllocError>
        ensures { IfOk result (λ value. value ≡ self.now) }
    {
        Ok(match self {
            Value::Unknown => Value::Unknown,
            Value::Boolean(truth) => Value::Boolean(*truth),
            Value::Integer(number) => Value::Integer(*number),
            Value::Text(text) => Value::Text(text.copy(alloc)?),
            Value::State(state) => Value::State(*state),
            Value::Outcome(outcome) => Value::Outcome(*outcome),
            Value::Failure(failure) => Value::Failure(*failure),
            Value::Handle(handle) => Value::Handle(*handle),
        })
    }
}
