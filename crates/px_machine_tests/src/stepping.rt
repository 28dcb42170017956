// The calls of a stepper that take memory: one that had none is made again.
ghost use Rattle.std.specs.Prelude.{◌≡◌, IsTrue, IfOk, OnOk};
ghost use Rattle.px_event.specs.Fit.{is_fit_event};
ghost use Rattle.px_sem.specs.Stepper.{Pending, Steps, is_pending, with_event};

use px_event::Event;
use px_sem::Stepper;
use px_value::NoMemory;
use std::alloc::Global;

/// Begins an event, and counts a call that had no memory.
pub(crate) fn begin<S: Stepper>(
    stepper: &mut S,
    alloc: Global,
    event: &Event,
    refusals: &mut u64,
) -> Result<(), NoMemory>
    requires nothing { (S.state stepper.old).pending ≡ Pending.Nothing }
    requires fit { IsTrue (is_fit_event event.now) }
    ensures { OnOk result (S.state stepper.new ≡ with_event (S.state stepper.old) event.now) }
{
    match stepper.begin(alloc, event) {
        Ok(()) => Ok(()),
        Err(_) => {
            *refusals = refusals.saturating_add(1);
            stepper.begin(alloc, event)
        }
    }
}

/// Takes a micro step, and counts a call that had no memory.
pub(crate) fn step<S: Stepper>(
    stepper: &mut S,
    alloc: Global,
    refusals: &mut u64,
) -> Result<bool, NoMemory>
    requires pending { IsTrue (is_pending (S.state stepper.old).pending) }
    ensures { IfOk result (Steps (S.state stepper.old) (S.state stepper.new) (S.last_moves stepper.new)) }
{
    match stepper.step(alloc) {
        Ok(has_gone) => Ok(has_gone),
        Err(_) => {
            *refusals = refusals.saturating_add(1);
            stepper.step(alloc)
        }
    }
}
