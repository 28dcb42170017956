// Events that are posted to a plan, and what its nodes do at each.
ghost use Rattle.std.specs.Prelude.{◌≡◌, false, IsTrue, IfOk, OnOk};
ghost use Rattle.px_core.specs.Fit.{IsFit};
ghost use Rattle.px_core.specs.Plan.{tree_of};
ghost use Rattle.px_sem.specs.Stepper.{Pending, is_pending};

use crate::recording::Recording;
use px_core::Plan;
use px_event::{Entry, Event, Reply};
use px_sem::{Offered, STEP_LIMIT, Stepper, offer};
use px_value::NoMemory;
use std::alloc::Global;

/// How many events a history has at most.
const EVENT_LIMIT: u32 = 100_000;

/// Records the run of a plan to which these entries are posted in their order, and answers whether its start settles;
/// where it doesn't, nothing is posted.
pub fn record_run<S: Stepper>(
    alloc: Global,
    plan: &Plan,
    entries: &[Entry],
    recording: &mut Recording,
) -> Result<bool, NoMemory>
    requires fit { IsFit (tree_of plan.now) }
{
    recording.add_rows(plan)?;
    let mut stepper = S::fresh(alloc, plan)?;
    let settles = start_and_post(alloc, &mut stepper, entries, recording);
    drop(stepper);
    settles
}

fn start_and_post<S: Stepper>(
    alloc: Global,
    stepper: &mut S,
    entries: &[Entry],
    recording: &mut Recording,
) -> Result<bool, NoMemory>
    requires pending { IsTrue (is_pending (S.state stepper.old).pending) }
{
    let settles = settles(alloc, stepper, recording)?;
    if settles {
        recording.end_start();
        post_each(alloc, stepper, entries, recording)?;
    }
    Ok(settles)
}

// Steps until the world is quiet and settles it, and answers whether it does so; each step is kept.
fn settles<S: Stepper>(
    alloc: Global,
    stepper: &mut S,
    recording: &mut Recording,
) -> Result<bool, NoMemory>
    requires pending { IsTrue (is_pending (S.state stepper.old).pending) }
    ensures rest { IfOk result (λ settles. IsTrue settles → (S.state stepper.new).pending ≡ Pending.Nothing) }
    ensures pending { IfOk result (λ settles. settles ≡ false → (S.state stepper.new).pending ≡ (S.state stepper.old).pending) }
{
    for _ in 0..STEP_LIMIT + 1 {
        if !stepper.step(alloc)? {
            stepper.settle();
            return Ok(true);
        }
        recording.step(stepper.moves());
    }
    Ok(false)
}

// Posts entries in their order.
fn post_each<S: Stepper>(
    alloc: Global,
    stepper: &mut S,
    entries: &[Entry],
    recording: &mut Recording,
) -> Result<(), NoMemory>
    requires nothing { (S.state stepper.old).pending ≡ Pending.Nothing }
{
    let mut count: u32 = 0;
    for entry in entries {
        let refused = post(alloc, stepper, count, &entry.event, recording)?;
        if refused.is_none() {
            count = count.saturating_add(1);
        }
        recording.end_entry(entry, refused);
    }
    Ok(())
}

// Posts an event, and answers why it is refused. One that settles is taken once more, step by step.
fn post<S: Stepper>(
    alloc: Global,
    stepper: &mut S,
    count: u32,
    event: &Event,
    recording: &mut Recording,
) -> Result<Option<&'static str>, NoMemory>
    requires nothing { (S.state stepper.old).pending ≡ Pending.Nothing }
    ensures rest { OnOk result ((S.state stepper.new).pending ≡ Pending.Nothing) }
{
    if !event.is_fit() {
        return Ok(Some("no event"));
    }
    match offer(stepper, alloc, EVENT_LIMIT, count, event)? {
        Offered::Refused(reply) => Ok(why_refused(reply)),
        Offered::Pending { .. } => {
            stepper.give_up();
            stepper.begin(alloc, event)?;
            if !settles(alloc, stepper, recording)? {
                stepper.give_up();
            }
            Ok(None)
        }
    }
}

fn why_refused(reply: Reply) -> Option<&'static str> {
    match reply {
        Reply::Accepted { .. } => None,
        Reply::PlanFinished => Some("the plan has finished"),
        Reply::Full => Some("the history is full"),
        Reply::Runaway => Some("it doesn't settle"),
    }
}
