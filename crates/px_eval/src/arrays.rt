// The element of an array at an index.
ghost use Rattle.std.specs.Prelude.{◌≡◌, ◌+◌, ◌≤◌, ◌<◌, ◌^◌, drop, length, take, IfSome};
ghost use Rattle.std.specs.Cow.{cow_value};
ghost use Rattle.px_value.specs.Value.{place_in};
ghost use Rattle.px_sem.specs.Expressions.{element};

use crate::lent::read;
use px_cells::Cells;
use px_value::Value;
use std::borrow::Cow;

/// The place that an index names in an array of so many elements; None where it has no such place, as for UNKNOWN
/// (PLEXIL reference manual, "Arrays").
pub fn place_in(size: u32, at: &Value) -> Option<u32>
    ensures place { result ≡ place_in size at.now }
    ensures within { IfSome result (λ place. place < size) }
{
    match at {
        Value::Integer(place) if *place >= 0 && (*place as u32) < size => Some(*place as u32),
        _ => None,
    }
}

/// The element at an index of the array that has so many cells from the first on; UNKNOWN where it has no such element.
pub fn element<'a>(cells: &'a Cells, first: u32, size: u32, at: Cow<'_, Value>) -> Cow<'a, Value>
    requires within { first + size ≤ length cells.now.contents.values }
    requires fits { first + size < 2 ^ 32 }
    ensures { cow_value result ≡ element (take size (drop first cells.now.contents.values)) (cow_value at.entry) }
{
    match place_in(size, read(&at)) {
        Some(place) => Cow::Borrowed(cells.get(first + place)),
        None => Cow::Owned(Value::Unknown),
    }
}
