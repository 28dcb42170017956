// A value that is lent by what holds it, or owned.
ghost use Rattle.std.specs.Prelude.{◌≡◌, IfOk};
ghost use Rattle.std.specs.Cow.{cow_value};

use px_value::{NoMemory, Value};
use std::alloc::Global;
use std::borrow::Cow;

/// The value, wherever it stands.
pub fn read<'a>(value: &'a Cow<'_, Value>) -> &'a Value
    ensures { result.now ≡ cow_value value.now }
{
    match value {
        Cow::Borrowed(value) => value,
        Cow::Owned(value) => value,
    }
}

/// The value as one's own, which is a copy where it is lent.
pub fn into_owned(alloc: Global, value: Cow<'_, Value>) -> Result<Value, NoMemory>
    ensures { IfOk result (λ owned. owned ≡ cow_value value.entry) }
{
    match value {
        Cow::Borrowed(value) => value.copy(alloc),
        Cow::Owned(value) => Ok(value),
    }
}
