// Places in an array.
ghost use Rattle.std.specs.Prelude.{◌≡◌};
ghost use Rattle.px_value.specs.Value.{value_index};

use crate::value::Value;

/// The place that `at` names among the cells.
///
/// None exactly where it isn't an Integer from 0 to `cells.len() - 1`.
pub fn index(cells: &[Value], at: &Value) -> Option<usize>
    ensures { result ≡ value_index cells.now at.now }
{
    match at {
        Value::Integer(place) if *place >= 0 && (*place as usize) < cells.len() => {
            Some(*place as usize)
        }
        _ => None,
    }
}
