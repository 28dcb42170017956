// An event that is offered to a settled stepper: refused, or begun and settled as far as the world goes.
ghost use Rattle.std.specs.Prelude.{◌≡◌, IsTrue, IfOk, OnErr};
ghost use Rattle.px_event.specs.Fit.{is_fit_event};
ghost use Rattle.px_sem.specs.Log.{answer};
ghost use Rattle.px_sem.specs.Offer.{reply_to, state_behind, IsSettled};
ghost use Rattle.px_sem.specs.Stepper.{Pending};

use crate::settling::StepFault;
use crate::{Standing, Stepper};
use px_event::{Event, Reply};
use px_value::NoMemory;
use std::alloc::{AllocError, Global};

/// What becomes of an event that is offered.
#[derive(Clone, Copy)]
pub enum Offered {
    /// It is refused, and nothing has changed.
    Refused(Reply),
    /// It has settled, and is to be accepted at this position, from 1; `settle` accepts it, and `give_up` takes it back.
    Pending { position: u32 },
}

/// Offers an event to a settled stepper that has taken so many events, of which a history has at most `limit`. After
/// `NoMemory` the stepper is as before.
pub fn offer<S: Stepper>(
    stepper: &mut S,
    alloc: Global,
    limit: u32,
    count: u32,
    event: &Event,
) -> Result<Offered, NoMemory>
    requires nothing { (S.state stepper.old).pending ≡ Pending.Nothing }
    requires fit { IsTrue (is_fit_event event.now) }
    ensures reply { IfOk result (λ offered. reply_to offered
        ≡ answer (S.state stepper.old).nodes limit count (S.state stepper.old).world event.now) }
    ensures state { IfOk result (λ offered. S.state stepper.new ≡ state_behind (S.state stepper.old) event.now offered) }
    ensures settled { IfOk result (IsSettled (S.state stepper.new)) }
    ensures err { OnErr result (S.state stepper.new ≡ S.state stepper.old) }
{
    if let Standing::Finished { .. } = stepper.standing() {
        return Ok(Offered::Refused(Reply::PlanFinished));
    }
    if limit <= count {
        return Ok(Offered::Refused(Reply::Full));
    }
    match stepper.advance(alloc, event) {
        Ok(_) => Ok(Offered::Pending {
            position: count + 1,
        }),
        Err(StepFault::Runaway) => Ok(Offered::Refused(Reply::Runaway)),
        Err(StepFault::NoMemory) => Err(AllocError),
    }
}
