// Settling: micro steps until the world is quiet.
ghost use Rattle.std.specs.Prelude.{◌≡◌, ℕ, None, Some, IsTrue, IfOk, OnOk, OnErr, IsErrOf};
ghost use Rattle.px_core.specs.Fit.{IsFit};
ghost use Rattle.px_core.specs.Plan.{tree_of, sites};
ghost use Rattle.px_sem.specs.declared.settling.StepFault.TheVariants.{NoMemory as OutOfMemory};
ghost use Rattle.px_sem.specs.Conflicts.{is_quiet};
ghost use Rattle.px_sem.specs.Run.{started, settled};
ghost use Rattle.px_sem.specs.Stepper.{is_pending, settled_state};

use crate::Stepper;
use px_core::Plan;
use px_value::NoMemory;
use std::alloc::Global;

/// The most micro steps that one event may take.
pub const STEP_LIMIT: u32 = 100_000;

/// Why a world was not settled.
#[derive(Clone, Copy, PartialEq, Eq)]
pub enum StepFault {
    /// No world within `STEP_LIMIT` micro steps is quiet.
    Runaway,
    NoMemory,
}

impl From<NoMemory> for StepFault {
    ghost from_gives = { λ _ fault. fault ≡ OutOfMemory };

    fn from(_: NoMemory) -> Self {
        StepFault::NoMemory
    }
}

/// The settled world of the start: the first quiet world that micro steps lead to.
///
/// `Runaway` comes exactly where none of the first `STEP_LIMIT` micro steps leads to a quiet world.
pub fn start<S: Stepper>(alloc: Global, plan: &Plan) -> Result<S, StepFault>
    requires fit { IsFit (tree_of plan.now) }
    ensures settled { IfOk result (λ s.
        ((k : ℕ) × (started (sites (tree_of plan.now)) ≡ Some ((S.state s).world, k)))) }
    ensures rest { IfOk result (λ s. S.state s ≡ settled_state (sites (tree_of plan.now)) (S.state s).world) }
    ensures runaway { IsErrOf result StepFault.Runaway →
        started (sites (tree_of plan.now)) ≡ None }
{
    let mut stepper = S::fresh(alloc, plan)?;
    step_until_quiet(&mut stepper, alloc)?;
    stepper.settle();
    Ok(stepper)
}

// Steps until the world is quiet, and answers in how many micro steps.
fn step_until_quiet<S: Stepper>(stepper: &mut S, alloc: Global) -> Result<u32, StepFault>
    requires pending { IsTrue (is_pending (S.state stepper.old).pending) }
    ensures settled { IfOk result (λ k.
        settled (S.state stepper.old).nodes (S.state stepper.old).world ≡ Some ((S.state stepper.new).world, k)) }
    ensures quiet { OnOk result (IsTrue (is_quiet (S.state stepper.new).nodes (S.state stepper.new).world)) }
    ensures runaway { IsErrOf result StepFault.Runaway
        → settled (S.state stepper.old).nodes (S.state stepper.old).world ≡ None }
    ensures nodes { (S.state stepper.new).nodes ≡ (S.state stepper.old).nodes }
    ensures pending { (S.state stepper.new).pending ≡ (S.state stepper.old).pending }
{
    for taken in 0..STEP_LIMIT + 1 {
        if !stepper.step(alloc)? {
            return Ok(taken);
        }
    }
    Err(StepFault::Runaway)
}
