// The place that a target names.
ghost use Rattle.std.specs.Prelude.{◌≡◌, ◌<◌, IfOk, IfSome};
ghost use Rattle.px_sem.specs.Effects.{index_of, cell_of};
ghost use Rattle.px_flat.specs.NumberedData.{target_data};
ghost use Rattle.px_flat.specs.Within.{IsTargetWithin};
ghost use Rattle.px_parts.specs.Parts.{AreStanding, plan_in};
ghost use Rattle.px_micro.specs.Places.{place_data, place_now};

use px_eval::{place_in, value_of};
use px_flat::NumberedTarget;
use px_parts::Parts;
use px_value::NoMemory;
use std::alloc::Global;

/// A scalar as a whole, or the element of an array at an index.
#[derive(Clone, Copy, PartialEq, Eq)]
pub enum Place {
    Whole,
    Element(u32),
}

impl Place {
    /// The index in an array.
    pub fn index(self) -> Option<u32>
        ensures { result ≡ index_of (place_data self) }
    {
        match self {
            Place::Whole => None,
            Place::Element(index) => Some(index),
        }
    }

    /// The number of the cell among those of the variable.
    pub fn offset(self) -> u32
        ensures { result ≡ cell_of (place_data self) }
    {
        match self {
            Place::Whole => 0,
            Place::Element(index) => index,
        }
    }
}

/// The place of a target, whose index is taken now; None where an array does not have the index.
pub fn place_of(
    alloc: Global,
    parts: &Parts,
    target: &NumberedTarget,
) -> Result<Option<Place>, NoMemory>
    requires stand { AreStanding parts.now }
    requires within { IsTargetWithin (plan_in parts.now) (target_data target.now) }
    ensures place { IfOk result (λ place. place ≡ place_now parts.now (target_data target.now)) }
    ensures within { IfOk result (λ place. IfSome place (λ place. cell_of (place_data place) < target.now.size)) }
{
    let Some(index) = &target.index else {
        return Ok(Some(Place::Whole));
    };
    let at = value_of(alloc, &parts.flat, &parts.cells, &parts.reports, index)?;
    Ok(match place_in(target.size, &at) {
        Some(index) => Some(Place::Element(index)),
        None => None,
    })
}
