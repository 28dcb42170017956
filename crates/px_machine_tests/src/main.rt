//! Runs generated plans on the queued machine and on the plain stepper, and says where they tell of other things.
//!
//! The rows are the file `stdin`, each a plan and a script:
//!
//! ```text
//! the plan's text
//! ----
//! the script's text
//! ====
//! ```
//!
//! where the line feed before a mark belongs to the mark. The posts of the script are offered in file order. `telling` tells
//! what a stepper does then, step by step: a row holds where both tell the same, and where the machine tells the same of the
//! events that it accepts when those that it refuses aren't offered, and when there are detours between them: each event is
//! begun and taken back before each (`detours`). `stepping` has the calls of a stepper that take memory: one that had none is
//! made again.
//!
//! Of a row that doesn't hold the first lines are printed in which they differ, and the row; at the end the number of rows
//! that hold and of their micro steps, and that of the calls that were made again, where there were any.
#![tactic(auto)]

ghost use Rattle.px_core.specs.Fit.{IsFit};
ghost use Rattle.px_core.specs.Plan.{tree_of};

mod agreeing;
mod detours;
mod reading;
mod row;
mod stepping;
mod telling;

use agreeing::{Agreement, agrees};
use anyhow::bail;
use px_core::Plan;
use px_machine::Machine;
use px_naive::Naive;
use reading::{entries_of, plan_of};
use row::Row;
use std::alloc::Global;
use std::io;

fn main(rt: HostRuntime) -> anyhow::Result<()> {
    let alloc = rt.alloc();
    let text = io::read_to_string(alloc, rt.reader())?;
    let mut rest = text.as_str();
    let (mut held, mut steps, mut refusals) = (0_u64, 0_u64, 0_u64);
    for _ in 0..text.len() as u64 {
        let Some((spelled, behind)) = rest.split_once("\n====\n") else {
            break;
        };
        rest = behind;
        let agreement = agreement_of(&rt, alloc, spelled)?;
        if agreement.holds {
            held = held.saturating_add(1);
        } else {
            println!(rt; "{spelled}\n====")?;
        }
        steps = steps.saturating_add(agreement.steps);
        refusals = refusals.saturating_add(agreement.refusals);
    }
    if !rest.is_empty() {
        println!(rt; "not ended: {rest}")?;
    }
    println!(rt; "{held} rows hold, of {steps} micro steps")?;
    if refusals > 0 {
        println!(rt; "{refusals} calls had no memory at first")?;
    }
    Ok(())
}

// What both steppers come to over the row that is spelled so.
fn agreement_of(rt: &impl Print, alloc: Global, spelled: &str) -> anyhow::Result<Agreement> {
    let Some(Row { plan, script }) = Row::spelled_by(spelled) else {
        bail!("no row: {spelled}");
    };
    let plan = plan_of(alloc, plan)?;
    let agreement = agreement_over(rt, alloc, &plan, script);
    // By name: the proof then doesn't follow each shape that a plan may have on the way out.
    drop(plan);
    agreement
}

// The same over a plan and what the script's text posts to it.
fn agreement_over(
    rt: &impl Print,
    alloc: Global,
    plan: &Plan,
    script: &str,
) -> anyhow::Result<Agreement>
    requires { IsFit (tree_of plan.now) }
{
    let entries = entries_of(alloc, script, plan)?;
    let agreement = agrees::<Machine, Naive>(rt, alloc, plan, &entries);
    drop(entries);
    agreement
}
