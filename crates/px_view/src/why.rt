// The command `why`.
ghost use Rattle.px_core.specs.Fit.{IsFit};
ghost use Rattle.px_core.specs.Plan.{tree_of};

use crate::answer::Stop;
use crate::counts::push_count;
use crate::reading::entries_in;
use crate::runaway::why_start;
use px_core::Plan;
use px_pen::Pen;
use px_sem::Stepper;
use std::alloc::Global;

/// Writes how many faults a file has.
pub fn push_faults(name: &str, faults: u32, out: &mut Pen) {
    out.fill("{}: ", name);
    push_count(faults as usize, "fault", out);
}

/// Says that a plan has no fault and its start settles, or which nodes go on.
pub fn why_plan<S: Stepper>(
    alloc: Global,
    name: &str,
    plan: &Plan,
    out: &mut Pen,
) -> Result<(), Stop>
    requires fit { IsFit (tree_of plan.now) }
{
    match why_start::<S>(alloc, name, plan, out) {
        Ok(()) => {
            out.fill("{}: no fault, ", name);
            push_count(plan.nodes() as usize, "node", out);
            Ok(())
        }
        Err(why) => Err(counted(name, why, out)),
    }
}

/// Says what a script for a plan is refused for, or that it has no fault.
pub fn why_script(
    alloc: Global,
    name: &str,
    lines: &[u8],
    plan: &Plan,
    out: &mut Pen,
) -> Result<(), Stop>
    requires fit { IsFit (tree_of plan.now) }
{
    match entries_in(alloc, name, lines, plan, out) {
        Ok(_) => {
            out.fill("{}: no fault\n", name);
            Ok(())
        }
        Err(why) => Err(counted(name, why, out)),
    }
}

// Counts the one fault that was told.
fn counted(name: &str, why: Stop, out: &mut Pen) -> Stop {
    if let Stop::Refused(_) = why {
        push_faults(name, 1, out);
    }
    why
}
