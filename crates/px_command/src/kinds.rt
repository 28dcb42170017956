// Values as a variable of a type takes them.
ghost use Rattle.std.specs.Prelude.{◌≡◌, IfOk};
ghost use Rattle.px_sem.specs.Effects.{as_kind};

use px_core::VarKind;
use px_value::{NoMemory, Value};
use std::alloc::Global;

/// A value as a variable of a type takes it: UNKNOWN in place of a value of another type.
pub fn as_kind(alloc: Global, kind: VarKind, value: &Value) -> Result<Value, NoMemory>
    ensures { IfOk result (λ taken. taken ≡ as_kind kind value.now) }
{
    match (kind, value) {
        (VarKind::Boolean, Value::Boolean(_))
        | (VarKind::Integer, Value::Integer(_))
        | (VarKind::Text, Value::Text(_)) => value.copy(alloc),
        _ => Ok(Value::Unknown),
    }
}
