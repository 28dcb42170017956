// What was reported of one state.
ghost use Rattle.std.specs.Prelude.{◌≡◌, IfOk};
ghost use Rattle.std.specs.Option.{option_copied};
ghost use Rattle.px_sem.specs.Events.{first_report, is_latched, next_report};
ghost use Rattle.px_sem.specs.World.{latched_at};

use px_value::{NoMemory, Value};
use std::alloc::Global;
use std::marker::Model;
use std::mem;

/// What was reported of a state: the last value, and the one that each tolerance has latched.
#[derive(Drop)]
pub struct Report {
    last: Value,
    /// Each tolerance with its value, in the order of the tolerances.
    latched: Vec<(u32, Value)>,
}

impl Model for Report {
    ghost use Rattle.px_sem.specs.World.{Report as Data};

    ghost Value = { Data };

    ghost view = { λ report. record { last = report.last; latched = report.latched.items } };
}

// Whether a reported value takes the place of the one that a tolerance has latched.
fn is_latched(tolerance: u32, old: &Value, given: &Value) -> bool
    ensures { result ≡ is_latched tolerance old.now given.now }
{
    match (old, given) {
        (Value::Integer(old), Value::Integer(given)) => tolerance <= old.abs_diff(*given),
        _ => true,
    }
}

impl Report {
    /// The first report of a state, which each tolerance latches.
    pub(crate) fn first(
        alloc: Global,
        tolerances: &[u32],
        given: &Value,
    ) -> Result<Report, NoMemory>
        ensures { IfOk result (λ report. report ≡ first_report tolerances.now given.now) }
    {
        let mut latched = Vec::with_capacity(alloc, tolerances.len())?;
        for tolerance in tolerances {
            latched.push((*tolerance, given.copy(alloc)?))?;
        }
        Ok(Report {
            last: given.copy(alloc)?,
            latched,
        })
    }

    /// The report of the state after one more. What it has latched is kept in the room of a vector.
    pub(crate) fn next(
        &self,
        alloc: Global,
        given: &Value,
        room: &mut Vec<(u32, Value)>,
    ) -> Result<Report, NoMemory>
        ensures { IfOk result (λ report. report ≡ next_report self.now given.now) }
    {
        Ok(Report {
            last: given.copy(alloc)?,
            latched: self.latched_after(alloc, given, room)?,
        })
    }

    // What each tolerance has latched after one more report. Without a tolerance it is nothing, and the room stays.
    fn latched_after(
        &self,
        alloc: Global,
        given: &Value,
        room: &mut Vec<(u32, Value)>,
    ) -> Result<Vec<(u32, Value)>, NoMemory>
        ensures { IfOk result (λ latched. latched.items ≡ (next_report self.now given.now).latched) }
    {
        if self.latched.is_empty() {
            return Ok(Vec::new(alloc));
        }
        let mut latched = mem::replace(room, Vec::new(alloc));
        latched.clear();
        latched.reserve(self.latched.len())?;
        for kept in &self.latched {
            let value = if is_latched(kept.0, &kept.1, given) {
                given
            } else {
                &kept.1
            };
            latched.push((kept.0, value.copy(alloc)?))?;
        }
        Ok(latched)
    }

    /// The last value.
    pub(crate) fn last(&self) -> &Value
        ensures { result.now ≡ self.now.last }
    {
        &self.last
    }

    /// The value that a tolerance has latched; None exactly where it is none of those that do.
    pub(crate) fn latched(&self, tolerance: u32) -> Option<&Value>
        ensures { option_copied result ≡ latched_at self.now tolerance }
    {
        for kept in &self.latched {
            if kept.0 == tolerance {
                return Some(&kept.1);
            }
        }
        None
    }

    /// The vector of what was latched, for another report.
    pub(crate) fn into_room(self) -> Vec<(u32, Value)> {
        self.latched
    }
}
