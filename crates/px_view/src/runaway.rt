// Whether a plan's start settles, and which nodes go on where it doesn't.
ghost use Rattle.std.specs.Prelude.{IsTrue};
ghost use Rattle.px_core.specs.Fit.{IsFit};
ghost use Rattle.px_core.specs.Plan.{tree_of};
ghost use Rattle.px_sem.specs.Stepper.{is_pending};

use crate::answer::{RUNAWAY, Stop};
use px_core::Plan;
use px_pen::Pen;
use px_sem::{Move, STEP_LIMIT, Stepper};
use px_why::end_whole;
use std::alloc::Global;

/// How many nodes are told.
const TOLD: usize = 5;

/// Settles the start of a plan; where it doesn't settle, writes which nodes go on.
pub fn why_start<S: Stepper>(
    alloc: Global,
    name: &str,
    plan: &Plan,
    out: &mut Pen,
) -> Result<(), Stop>
    requires fit { IsFit (tree_of plan.now) }
{
    let mut stepper = S::fresh(alloc, plan)?;
    let settled = step_until_quiet(alloc, name, &mut stepper, out);
    drop(stepper);
    settled
}

fn step_until_quiet<S: Stepper>(
    alloc: Global,
    name: &str,
    stepper: &mut S,
    out: &mut Pen,
) -> Result<(), Stop>
    requires pending { IsTrue (is_pending (S.state stepper.old).pending) }
{
    for _ in 0..STEP_LIMIT + 1 {
        if !stepper.step(alloc)? {
            return Ok(());
        }
    }
    push_going(name, stepper.moves(), out);
    Err(Stop::Refused(RUNAWAY))
}

fn push_going(name: &str, moves: &[Move], out: &mut Pen) {
    out.push(
        "error: the start doesn't settle within 100,000 steps: these nodes go on without an event from outside:",
    );
    for moved in moves.iter().take(TOLD) {
        out.fill(" {}", moved.node.as_str());
    }
    end_whole(
        out,
        name,
        "let a node that repeats wait for the outside, as by `Start Lookup(go);`, or give it a Repeat that becomes false",
    );
}
