// Whether two steppers tell the same.
ghost use Rattle.std.specs.Prelude.{IsTrue};
ghost use Rattle.std.specs.List.{list_all};
ghost use Rattle.px_core.specs.Fit.{IsFit};
ghost use Rattle.px_core.specs.Plan.{tree_of};
ghost use Rattle.px_event.specs.Fit.{is_fit_entry};

use crate::telling::{Told, told_of};
use px_core::Plan;
use px_event::Entry;
use px_sem::Stepper;
use std::alloc::Global;

/// What the steppers of a row come to.
#[derive(Clone, Copy)]
pub(crate) struct Agreement {
    /// Whether both tell the same, and the first the same of fewer events and of detours.
    pub(crate) holds: bool,
    /// How many micro steps the start and the accepted events took on the first.
    pub(crate) steps: u64,
    /// How many calls of the first had no memory, and were made again.
    pub(crate) refusals: u64,
}

/// Whether steppers of two types tell the same of the start of a plan and of these events, and whether the first tells the same
/// of those that it accepts where the others aren't offered, and each is begun and taken back before each.
pub(crate) fn agrees<A: Stepper, B: Stepper>(
    rt: &impl Print,
    alloc: Global,
    plan: &Plan,
    entries: &[Entry],
) -> anyhow::Result<Agreement>
    requires plan { IsFit (tree_of plan.now) }
    requires entries { IsTrue (list_all is_fit_entry entries.now) }
{
    let first = told_of::<A>(alloc, plan, entries, &[], &[])?;
    let second = told_of::<B>(alloc, plan, entries, &[], &[])?;
    let fewer = told_of::<A>(alloc, plan, entries, &first.refused, entries)?;
    let holds = are_same(rt, &first, &second, &fewer)?;
    Ok(Agreement {
        holds,
        steps: first.steps,
        refusals: first.refusals.saturating_add(fewer.refusals),
    })
}

// Whether the first and the second tell the same, and the first the same as that of fewer events.
fn are_same(rt: &impl Print, first: &Told, second: &Told, fewer: &Told) -> anyhow::Result<bool> {
    Ok(
        first.refused == second.refused
            && is_same(rt, &first.text, &second.text)?
            && is_same(rt, &first.refused_text, &second.refused_text)?
            && is_same(rt, &first.text, &fewer.text)?,
    )
}

// Whether two texts are the same; else the first lines are printed that aren't.
fn is_same(rt: &impl Print, first: &[u8], second: &[u8]) -> anyhow::Result<bool> {
    if first == second {
        return Ok(true);
    }
    let first = str::from_utf8(first)?;
    let second = str::from_utf8(second)?;
    let mut lines = first.lines().zip(second.lines());
    match lines.find(|(one, other)| one != other) {
        Some((one, other)) => println!(rt; "{one}\nin the place of\n{other}")?,
        None => println!(rt; "one tells more than the other")?,
    }
    Ok(false)
}
