// The program over a host.
ghost use Rattle.px_core.specs.Fit.{IsFit};
ghost use Rattle.px_core.specs.Plan.{tree_of};

use crate::answer::{Answer, DONE, PLAN_REFUSED, Stop, USAGE, WANT_OF_MEMORY};
use crate::chart::{chart_journal, chart_script};
use crate::journal::{JOURNAL_LIMIT, list_journal};
use crate::nodes::list_nodes;
use crate::reading::{NoPlan, fetch, plan_in};
use crate::why::{push_faults, why_plan, why_script};
use crate::words::{Task, What, task_in};
use px_compile::TEXT_LIMIT;
use px_core::Plan;
use px_pen::Pen;
use px_ports::Host;
use px_script::SCRIPT_LIMIT;
use px_sem::Stepper;
use px_value::NoMemory;
use std::alloc::{AllocError, Global};

/// Does what the words ask for, which are those behind the program's own name, with runs on a stepper of this type. The
/// host is asked for files alone.
pub fn view<H: Host, S: Stepper>(alloc: Global, words: &[String], host: &mut H) -> Answer {
    match answer::<H, S>(alloc, words, host) {
        Ok(answer) => answer,
        Err(_) => Answer {
            status: WANT_OF_MEMORY,
            text: String::new(alloc),
            file: None,
        },
    }
}

fn answer<H: Host, S: Stepper>(
    alloc: Global,
    words: &[String],
    host: &mut H,
) -> Result<Answer, NoMemory> {
    let mut out = Pen::new(alloc);
    match asked::<H, S>(alloc, words, host, &mut out) {
        Ok(None) => answered(DONE, out, None),
        Ok(Some(name)) => {
            let name = String::from_str(alloc, name)?;
            answered(DONE, out, Some(name))
        }
        Err(Stop::Refused(status)) => answered(status, out, None),
        Err(Stop::NoMemory) => Err(AllocError),
    }
}

fn answered(status: u8, out: Pen, file: Option<String>) -> Result<Answer, NoMemory> {
    let text = out.written()?;
    Ok(Answer { status, text, file })
}

// Does what is asked for, and answers the name of the file where what is written goes, if it goes to one.
fn asked<'a, H: Host, S: Stepper>(
    alloc: Global,
    words: &'a [String],
    host: &mut H,
    out: &mut Pen,
) -> Result<Option<&'a str>, Stop> {
    let task = task_in(alloc, words, out)?;
    spare(&task, out)?;
    carry_out::<H, S>(alloc, &task, host, out)?;
    Ok(task.to)
}

// A picture doesn't take the place of a file that it is made of.
fn spare(task: &Task<'_>, out: &mut Pen) -> Result<(), Stop> {
    match task.to {
        Some(name) if name == task.file || task.script == Some(name) => {
            let why = "{}: the picture is made of this file, and can't take its place\n";
            out.fill(why, name);
            Err(Stop::Refused(USAGE))
        }
        _ => Ok(()),
    }
}

fn carry_out<H: Host, S: Stepper>(
    alloc: Global,
    task: &Task<'_>,
    host: &mut H,
    out: &mut Pen,
) -> Result<(), Stop> {
    match task.what {
        What::Journal => {
            let bytes = fetch(alloc, task.file, JOURNAL_LIMIT, host, out)?;
            list_journal(alloc, task.file, bytes, out)
        }
        What::ChartJournal => {
            let bytes = fetch(alloc, task.file, JOURNAL_LIMIT, host, out)?;
            chart_journal::<S>(alloc, task.file, bytes, out)
        }
        What::Why | What::Nodes | What::Chart => {
            let bytes = fetch(alloc, task.file, TEXT_LIMIT, host, out)?;
            let lines = match task.script {
                Some(script) => fetch(alloc, script, SCRIPT_LIMIT, host, out)?,
                None => Vec::new(alloc),
            };
            over_plan::<S>(alloc, task, &bytes, &lines, out)
        }
    }
}

// Does a task over the plan that bytes spell, and the lines of the script for it.
fn over_plan<S: Stepper>(
    alloc: Global,
    task: &Task<'_>,
    bytes: &[u8],
    lines: &[u8],
    out: &mut Pen,
) -> Result<(), Stop> {
    match plan_in(alloc, task.file, bytes, out) {
        Ok(plan) => {
            let done = with_plan::<S>(alloc, task, &plan, lines, out);
            drop(plan);
            done
        }
        Err(NoPlan::Refused(faults)) => {
            if let (What::Why, None) = (task.what, task.script) {
                push_faults(task.file, faults, out);
            }
            Err(Stop::Refused(PLAN_REFUSED))
        }
        Err(NoPlan::NoMemory) => Err(Stop::NoMemory),
    }
}

fn with_plan<S: Stepper>(
    alloc: Global,
    task: &Task<'_>,
    plan: &Plan,
    lines: &[u8],
    out: &mut Pen,
) -> Result<(), Stop>
    requires fit { IsFit (tree_of plan.now) }
{
    let name = task.file;
    match (task.what, task.script) {
        (What::Nodes, _) => Ok(list_nodes(alloc, plan, task.like, out)?),
        (What::Chart, Some(script)) => chart_script::<S>(alloc, name, plan, script, lines, out),
        (_, Some(script)) => why_script(alloc, script, lines, plan, out),
        (_, None) => why_plan::<S>(alloc, name, plan, out),
    }
}
