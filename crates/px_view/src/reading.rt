// Files, and the plans and the scripts in them.
ghost use Rattle.std.specs.Prelude.{IfOk};
ghost use Rattle.px_core.specs.Fit.{IsFit};
ghost use Rattle.px_core.specs.Plan.{tree_of};

use crate::answer::{PLAN_REFUSED, READ_FAULT, SCRIPT_REFUSED, Stop};
use crate::lines::push_line;
use px_compile::{TEXT_LIMIT, compile};
use px_core::Plan;
use px_event::Entry;
use px_pen::Pen;
use px_ports::{Fetched, Host, HostFault};
use px_script::{SCRIPT_LIMIT, ScriptFault, read_script};
use px_syntax::{ExpandFault, PlanFault};
use px_why::{end_whole, why_plan};
use std::alloc::Global;

/// The bytes of a file, which has at most `limit`.
pub fn fetch<H: Host>(
    alloc: Global,
    name: &str,
    limit: usize,
    host: &mut H,
    out: &mut Pen,
) -> Result<Vec<u8>, Stop> {
    match host.fetch(alloc, name, limit) {
        Ok(Fetched::Whole(bytes)) => Ok(bytes),
        Ok(Fetched::Longer) => {
            out.fill("{}: the file has over ", name);
            out.fill_each("{} bytes\n", &[limit]);
            Err(Stop::Refused(READ_FAULT))
        }
        Err(HostFault::Failed) => {
            out.fill("{}: the file can't be read\n", name);
            Err(Stop::Refused(READ_FAULT))
        }
        Err(HostFault::NoMemory) => Err(Stop::NoMemory),
    }
}

/// Why bytes spell no plan that can be run.
#[derive(Clone, Copy)]
pub enum NoPlan {
    /// For so many reasons, which are written.
    Refused(u32),
    /// Memory has run out.
    NoMemory,
}

impl From<NoPlan> for Stop {
    fn from(why: NoPlan) -> Self {
        match why {
            NoPlan::Refused(_) => Stop::Refused(PLAN_REFUSED),
            NoPlan::NoMemory => Stop::NoMemory,
        }
    }
}

/// The plan that bytes spell. Where they spell none, why is written.
pub fn plan_in(alloc: Global, name: &str, bytes: &[u8], out: &mut Pen) -> Result<Plan, NoPlan>
    ensures fit { IfOk result (λ plan. IsFit (tree_of plan)) }
{
    if bytes.len() > TEXT_LIMIT {
        out.push("error: the file is no plan: it has over 1,048,576 bytes");
        end_whole(out, name, "");
        return Err(NoPlan::Refused(1));
    }
    match compile(alloc, bytes) {
        Ok(plan) => Ok(plan),
        Err(PlanFault::NoMemory) => Err(NoPlan::NoMemory),
        Err(PlanFault::Expand(ExpandFault::TooMany { nodes })) => Err(too_many(name, nodes, out)),
        Err(_) => Err(no_plan(alloc, name, bytes, out)),
    }
}

fn no_plan(alloc: Global, name: &str, bytes: &[u8], out: &mut Pen) -> NoPlan {
    match why_plan(alloc, name, bytes, out) {
        Ok(faults) => NoPlan::Refused(faults),
        Err(_) => NoPlan::NoMemory,
    }
}

fn too_many(name: &str, nodes: u32, out: &mut Pen) -> NoPlan {
    out.fill_each(
        "error: the plan has {} nodes, of at most 4,096, or one of them a path of over 5,000 bytes",
        &[nodes],
    );
    end_whole(out, name, "make it of fewer nodes, or nest them less deep");
    NoPlan::Refused(1)
}

/// What the lines of a script for a plan post, by rising numbers. Where bytes are no script, why is written.
pub fn entries_in(
    alloc: Global,
    name: &str,
    bytes: &[u8],
    plan: &Plan,
    out: &mut Pen,
) -> Result<Vec<Entry>, Stop>
    requires fit { IsFit (tree_of plan.now) }
{
    if bytes.len() > SCRIPT_LIMIT {
        out.push("error: the file is no script: it has over 16,777,216 bytes");
        end_whole(out, name, "");
        return Err(Stop::Refused(SCRIPT_REFUSED));
    }
    match read_script(alloc, bytes, plan) {
        Ok(script) => Ok(script.into_entries(alloc)?),
        Err(ScriptFault::Fault { line, kind }) => {
            push_line(alloc, name, bytes, line, kind, plan, out);
            Err(Stop::Refused(SCRIPT_REFUSED))
        }
        Err(ScriptFault::NoMemory) => Err(Stop::NoMemory),
    }
}
