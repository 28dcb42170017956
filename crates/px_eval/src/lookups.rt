// What was reported of a state of the outside.
ghost use Rattle.std.specs.Prelude.{◌≡◌, not, IfOk};
ghost use Rattle.std.specs.Cow.{cow_value};
ghost use Rattle.std.specs.List.{list_any};
ghost use Rattle.std.specs.Option.{option_copied};
ghost use Rattle.px_value.specs.Value.{is_known};
ghost use Rattle.px_sem.specs.Expressions.{read_report};
ghost use Rattle.px_flat.specs.Numbered.{reported_of};

use px_event::Values;
use px_lookup::{LookState, Reports};
use px_value::{Name, NoMemory, Value};
use std::alloc::Global;
use std::borrow::Cow;

fn is_any_unknown(values: &Values) -> bool
    ensures { result ≡ list_any (λ arg. not (is_known arg)) values.now }
{
    values.as_slice().iter().any(|value| !value.is_known())
}

// What a lookup reads of a state: the value that its tolerance has latched, and without one the value last reported.
fn read_report<'a>(
    reports: &'a Reports,
    state: &LookState,
    tolerance: Option<u32>,
) -> Option<&'a Value>
    ensures { option_copied result ≡ read_report reports.now.reports state.now tolerance }
{
    match tolerance {
        Some(tolerance) => reports.latched(state, tolerance),
        None => reports.last(state),
    }
}

/// What a lookup with this tolerance, or with none, reads of the state that a name and arguments make; UNKNOWN where it was
/// never reported, and where an argument is UNKNOWN (PLEXIL reference manual, "Lookups").
pub fn looked_up<'a>(
    alloc: Global,
    reports: &'a Reports,
    name: &Name,
    args: Values,
    tolerance: Option<u32>,
) -> Result<Cow<'a, Value>, NoMemory>
    ensures { IfOk result (λ value. cow_value value ≡ reported_of reports.now.reports name.now args tolerance) }
{
    if is_any_unknown(&args) {
        return Ok(Cow::Owned(Value::Unknown));
    }
    let state = LookState::new(name.copy(alloc)?, args);
    Ok(match read_report(reports, &state, tolerance) {
        Some(value) => Cow::Borrowed(value),
        None => Cow::Owned(Value::Unknown),
    })
}
