// The command `chart`.
ghost use Rattle.px_core.specs.Fit.{IsFit};
ghost use Rattle.px_core.specs.Plan.{tree_of};

use crate::answer::Stop;
use crate::journal::{Held, list_journal, recovered};
use crate::reading::{entries_in, plan_in};
use crate::runaway::why_start;
use px_chart::draw_run;
use px_core::Plan;
use px_event::Entry;
use px_journal::RecoverWhy;
use px_pen::Pen;
use px_sem::Stepper;
use std::alloc::Global;

/// Draws the run of a plan to which the lines of a script are posted by their numbers.
pub fn chart_script<S: Stepper>(
    alloc: Global,
    name: &str,
    plan: &Plan,
    script: &str,
    lines: &[u8],
    out: &mut Pen,
) -> Result<(), Stop>
    requires fit { IsFit (tree_of plan.now) }
{
    let entries = entries_in(alloc, script, lines, plan, out)?;
    let title = format!(in alloc; "{name}, {script}")?;
    chart_entries::<S>(alloc, title.as_str(), plan, &entries, out)
}

/// Draws the run that a journal holds.
pub fn chart_journal<S: Stepper>(
    alloc: Global,
    name: &str,
    bytes: Vec<u8>,
    out: &mut Pen,
) -> Result<(), Stop> {
    match recovered(alloc, &bytes) {
        Ok(held) => chart_held::<S>(alloc, name, &held, out),
        Err(RecoverWhy::NoJournal | RecoverWhy::Damaged { .. }) => {
            list_journal(alloc, name, bytes, out)
        }
        Err(RecoverWhy::DiskFault | RecoverWhy::NoMemory) => Err(Stop::NoMemory),
    }
}

fn chart_held<S: Stepper>(
    alloc: Global,
    name: &str,
    held: &Held,
    out: &mut Pen,
) -> Result<(), Stop> {
    let inside = format!(in alloc; "the plan in {name}")?;
    let plan = plan_in(alloc, inside.as_str(), &held.text, out)?;
    let drawn = chart_entries::<S>(alloc, name, &plan, &held.history, out);
    drop(plan);
    drawn
}

fn chart_entries<S: Stepper>(
    alloc: Global,
    title: &str,
    plan: &Plan,
    entries: &[Entry],
    out: &mut Pen,
) -> Result<(), Stop>
    requires fit { IsFit (tree_of plan.now) }
{
    match draw_run::<S>(alloc, title, plan, entries, out) {
        Ok(true) => Ok(()),
        Ok(false) => why_start::<S>(alloc, title, plan, out),
        Err(_) => Err(Stop::NoMemory),
    }
}
