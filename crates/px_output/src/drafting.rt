// Starts and posts, of which a draft keeps the text, so that a run needn't go once more to be printed.
ghost use Rattle.std.specs.Prelude.{◌≡◌, ◌≤◌, ℕ, List, None, Some, [], length, map, IsTrue, IfOk, OnOk, OnErr, IsErrOf};
ghost use Rattle.std.specs.List.{list_all};
ghost use Rattle.px_core.specs.Fit.{IsFit};
ghost use Rattle.px_core.specs.Plan.{tree_of, sites};
ghost use Rattle.px_event.specs.Fit.{is_fit_event, is_fit_entry};
ghost use Rattle.px_sem.specs.Conflicts.{is_quiet};
ghost use Rattle.px_sem.specs.Events.{take};
ghost use Rattle.px_sem.specs.Log.{accepted, answer, world_after, AnswersEach, HasRun};
ghost use Rattle.px_sem.specs.Run.{run, started, posted, settled};
ghost use Rattle.px_sem.specs.Stepper.{Pending, is_pending, settled_state};
ghost use Rattle.px_sem.specs.Text.{settled_text, trace};
ghost use Rattle.px_output.specs.Drafts.{Keeps, Holds, post_text};

use crate::draft::Draft;
use px_core::Plan;
use px_event::{Entry, Event, Reply};
use px_sem::{Posted, STEP_LIMIT, Standing, StepFault, Stepper, post};
use px_value::NoMemory;
use std::alloc::{AllocError, Global};

/// The settled world of the start, as `start` of px_sem has it; the draft keeps its trace.
///
/// `Runaway` comes exactly where none of the first `STEP_LIMIT` micro steps leads to a quiet world.
pub fn start_drafted<S: Stepper>(
    alloc: Global,
    plan: &Plan,
    draft: &mut Draft,
) -> Result<S, StepFault>
    requires fit { IsFit (tree_of plan.now) }
    ensures settled { IfOk result (λ s.
        ((k : ℕ) × (started (sites (tree_of plan.now)) ≡ Some ((S.state s).world, k)))) }
    ensures rest { IfOk result (λ s. S.state s ≡ settled_state (sites (tree_of plan.now)) (S.state s).world) }
    ensures runaway { IsErrOf result StepFault.Runaway →
        started (sites (tree_of plan.now)) ≡ None }
    ensures keeps { OnOk result (Keeps draft.old draft.new (trace (sites (tree_of plan.now)) [])) }
{
    let mut stepper = S::fresh(alloc, plan)?;
    draft.start();
    step_until_quiet(alloc, &mut stepper, draft)?;
    stepper.settle();
    Ok(stepper)
}

/// Posts entries one after another to a stepper that has taken no event since the start, as `post_each` of px_sem does.
/// The log is legal for a history of at most `limit` events, and the world is the run over the accepted ones, of which the
/// draft keeps the trace. After `NoMemory` the stepper is anywhere in the run.
pub fn post_each_drafted<S: Stepper>(
    alloc: Global,
    stepper: &mut S,
    limit: u32,
    entries: Vec<Entry>,
    draft: &mut Draft,
) -> Result<Posted, NoMemory>
    requires nothing { (S.state stepper.old).pending ≡ Pending.Nothing }
    requires started { run (S.state stepper.old).nodes [] ≡ Some (S.state stepper.old).world }
    requires fit { IsTrue (list_all is_fit_entry entries.items) }
    requires holds { Holds draft.old (trace (S.state stepper.old).nodes []) }
    ensures each { IfOk result (λ posted. map (λ logged. logged.entry) posted.log.items ≡ entries.items) }
    ensures legal { IfOk result (λ posted. AnswersEach (S.state stepper.old).nodes limit [] posted.log.items) }
    ensures history { IfOk result (λ posted. posted.history.items ≡ accepted posted.log.items) }
    ensures within { IfOk result (λ posted. length posted.history.items ≤ limit) }
    ensures runs { IfOk result (λ posted.
        HasRun (S.state stepper.old).nodes posted.history.items (S.state stepper.new)) }
    ensures holds { IfOk result (λ posted. Holds draft.new (trace (S.state stepper.old).nodes posted.history.items)) }
{
    let mut posted = Posted {
        history: Vec::with_capacity(alloc, entries.len())?,
        log: Vec::with_capacity(alloc, entries.len())?,
    };
    for entry in entries {
        let count = posted.history.len() as u32;
        let reply = post_drafted(alloc, stepper, limit, count, &entry, draft)?;
        posted.note(alloc, entry, reply)?;
    }
    Ok(posted)
}

// Posts an entry to a settled stepper that has taken so many events, as `post` of px_sem does; the draft keeps what it adds
// to the trace.
fn post_drafted<S: Stepper>(
    alloc: Global,
    stepper: &mut S,
    limit: u32,
    count: u32,
    entry: &Entry,
    draft: &mut Draft,
) -> Result<Reply, NoMemory>
    requires nothing { (S.state stepper.old).pending ≡ Pending.Nothing }
    requires fit { IsTrue (is_fit_entry entry.now) }
    ensures reply { IfOk result (λ reply. reply
        ≡ answer (S.state stepper.old).nodes limit count (S.state stepper.old).world entry.now.event) }
    ensures state { IfOk result (λ reply. S.state stepper.new
        ≡ settled_state (S.state stepper.old).nodes
        (world_after (S.state stepper.old).nodes (S.state stepper.old).world entry.now.event reply)) }
    ensures err { OnErr result (S.state stepper.new ≡ S.state stepper.old) }
    ensures keeps { IfOk result (λ reply. Keeps draft.old draft.new
        (post_text (S.state stepper.old).nodes (S.state stepper.old).world entry.now reply)) }
{
    if !draft.is_kept() {
        return post(stepper, alloc, limit, count, &entry.event);
    }
    if let Standing::Finished { .. } = stepper.standing() {
        return Ok(Reply::PlanFinished);
    }
    if limit <= count {
        return Ok(Reply::Full);
    }
    let len = draft.len();
    let position = count + 1;
    draft.heading(position, entry);
    match advance_drafted(alloc, stepper, &entry.event, draft) {
        Ok(()) => {
            stepper.settle();
            Ok(Reply::Accepted { position })
        }
        Err(fault) => {
            draft.truncate(len);
            match fault {
                StepFault::Runaway => Ok(Reply::Runaway),
                StepFault::NoMemory => Err(AllocError),
            }
        }
    }
}

// Takes an event, and steps until the world is quiet, as `advance` of a stepper does; the draft keeps the micro steps.
fn advance_drafted<S: Stepper>(
    alloc: Global,
    stepper: &mut S,
    event: &Event,
    draft: &mut Draft,
) -> Result<(), StepFault>
    requires nothing { (S.state stepper.old).pending ≡ Pending.Nothing }
    requires fit { IsTrue (is_fit_event event.now) }
    ensures settled { IfOk result (λ _. ((k : ℕ) × (posted (S.state stepper.old).nodes (S.state stepper.old).world event.now
        ≡ Some ((S.state stepper.new).world, k)))) }
    ensures pending { OnOk result (S.state stepper.new
        ≡ record { nodes = (S.state stepper.old).nodes; world = (S.state stepper.new).world; pending = Pending.Event (S.state stepper.old).world }) }
    ensures runaway { IsErrOf result StepFault.Runaway
        → posted (S.state stepper.old).nodes (S.state stepper.old).world event.now ≡ None }
    ensures err { OnErr result (S.state stepper.new ≡ S.state stepper.old) }
    ensures keeps { OnOk result (Keeps draft.old draft.new
        (settled_text (S.state stepper.old).nodes (take (S.state stepper.old).nodes (S.state stepper.old).world event.now))) }
    ensures behind { (text : List ℕ) × Keeps draft.old draft.new text }
{
    stepper.begin(alloc, event)?;
    match step_until_quiet(alloc, stepper, draft) {
        Ok(()) => Ok(()),
        Err(fault) => {
            stepper.give_up();
            Err(fault)
        }
    }
}

// Steps until the world is quiet; the draft keeps each step and how many there were.
fn step_until_quiet<S: Stepper>(
    alloc: Global,
    stepper: &mut S,
    draft: &mut Draft,
) -> Result<(), StepFault>
    requires pending { IsTrue (is_pending (S.state stepper.old).pending) }
    ensures settled { IfOk result (λ _. ((k : ℕ) × (settled (S.state stepper.old).nodes (S.state stepper.old).world
        ≡ Some ((S.state stepper.new).world, k)))) }
    ensures quiet { OnOk result (IsTrue (is_quiet (S.state stepper.new).nodes (S.state stepper.new).world)) }
    ensures runaway { IsErrOf result StepFault.Runaway
        → settled (S.state stepper.old).nodes (S.state stepper.old).world ≡ None }
    ensures nodes { (S.state stepper.new).nodes ≡ (S.state stepper.old).nodes }
    ensures pending { (S.state stepper.new).pending ≡ (S.state stepper.old).pending }
    ensures keeps { OnOk result
        (Keeps draft.old draft.new (settled_text (S.state stepper.old).nodes (S.state stepper.old).world)) }
    ensures behind { (text : List ℕ) × Keeps draft.old draft.new text }
{
    for taken in 0..STEP_LIMIT + 1 {
        if !stepper.step(alloc)? {
            draft.quiet(taken);
            return Ok(());
        }
        draft.step(taken + 1, stepper.moves());
    }
    Err(StepFault::Runaway)
}
