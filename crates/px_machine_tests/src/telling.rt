// What a stepper does over events, told step by step.
ghost use Rattle.std.specs.Prelude.{◌≡◌, IsTrue, IfOk, IfSome, OnOk};
ghost use Rattle.std.specs.List.{list_all};
ghost use Rattle.px_core.specs.Fit.{IsFit};
ghost use Rattle.px_core.specs.Plan.{tree_of};
ghost use Rattle.px_event.specs.Fit.{is_fit_entry};
ghost use Rattle.px_sem.specs.Conflicts.{is_quiet};
ghost use Rattle.px_sem.specs.Stepper.{Pending, is_pending};

use crate::detours::take_back_each;
use crate::stepping::{begin, step};
use px_core::Plan;
use px_event::Entry;
use px_flat::{Flat, flatten};
use px_sem::{STEP_LIMIT, Standing, Stepper};
use px_trace::{push_heading, push_quiet, push_standing, push_start, push_step};
use px_value::NoMemory;
use std::alloc::Global;

// How many micro steps of an event are told one by one: an event that is refused has over 100,000.
const TOLD_STEPS: u32 = 10_000;

/// What is told of a stepper.
#[derive(Drop)]
pub(crate) struct Told {
    /// The start and the events that were accepted: their micro steps, and how the plan and its nodes stand then.
    pub(crate) text: Vec<u8>,
    /// The micro steps of the events that were refused.
    pub(crate) refused_text: Vec<u8>,
    /// Of each event whether it was refused, or not offered.
    pub(crate) refused: Vec<bool>,
    /// How many micro steps the start and the accepted events took.
    pub(crate) steps: u64,
    /// How many calls had no memory, and were made again.
    pub(crate) refusals: u64,
}

/// What a stepper of this type does in the start of a plan and over these events, where those at the places that are `true` in
/// `left_out` aren't offered, and before each the detours are begun and taken back. A start that runs away is told as a refused
/// event, and no event then.
pub(crate) fn told_of<S: Stepper>(
    alloc: Global,
    plan: &Plan,
    entries: &[Entry],
    left_out: &[bool],
    detours: &[Entry],
) -> Result<Told, NoMemory>
    requires plan { IsFit (tree_of plan.now) }
    requires entries { IsTrue (list_all is_fit_entry entries.now) }
    requires detours { IsTrue (list_all is_fit_entry detours.now) }
{
    let flat = flatten(alloc, plan)?;
    let told = told_over::<S>(alloc, plan, &flat, entries, left_out, detours);
    // By name: the proof then doesn't follow each shape that tables may have on the way out.
    drop(flat);
    told
}

// The same over the plan's tables.
fn told_over<S: Stepper>(
    alloc: Global,
    plan: &Plan,
    flat: &Flat,
    entries: &[Entry],
    left_out: &[bool],
    detours: &[Entry],
) -> Result<Told, NoMemory>
    requires plan { IsFit (tree_of plan.now) }
    requires entries { IsTrue (list_all is_fit_entry entries.now) }
    requires detours { IsTrue (list_all is_fit_entry detours.now) }
{
    let mut told = Told {
        text: Vec::new(alloc),
        refused_text: Vec::new(alloc),
        refused: Vec::new(alloc),
        steps: 0,
        refusals: 0,
    };
    let mut stepper = S::fresh(alloc, plan)?;
    push_start(alloc, &mut told.text)?;
    if !has_started(&mut stepper, alloc, flat, &mut told)? {
        return Ok(told);
    }
    for entry in entries {
        take_back_each(&mut stepper, alloc, detours, &mut told.refusals)?;
        let is_left_out = left_out.get(told.refused.len()) == Some(&true);
        let is_accepted = !is_left_out && accepts(&mut stepper, alloc, flat, entry, &mut told)?;
        told.refused.push(!is_accepted)?;
    }
    Ok(told)
}

// Settles the start, and tells it; false where it runs away.
fn has_started<S: Stepper>(
    stepper: &mut S,
    alloc: Global,
    flat: &Flat,
    told: &mut Told,
) -> Result<bool, NoMemory>
    requires pending { IsTrue (is_pending (S.state stepper.old).pending) }
    ensures nothing { IfOk result (λ has_started. IsTrue has_started → (S.state stepper.new).pending ≡ Pending.Nothing) }
{
    let mut moves = Vec::new(alloc);
    let Some(steps) = settled(stepper, alloc, &mut moves, &mut told.refusals)? else {
        told.refused_text.extend_from_slice(&moves)?;
        return Ok(false);
    };
    stepper.settle();
    told.text.extend_from_slice(&moves)?;
    told.steps = told.steps.saturating_add(u64::from(steps));
    push_rest(stepper, alloc, flat, &mut told.text)?;
    Ok(true)
}

// Offers an entry, and tells what comes of it; whether it is accepted.
fn accepts<S: Stepper>(
    stepper: &mut S,
    alloc: Global,
    flat: &Flat,
    entry: &Entry,
    told: &mut Told,
) -> Result<bool, NoMemory>
    requires nothing { (S.state stepper.old).pending ≡ Pending.Nothing }
    requires fit { IsTrue (is_fit_entry entry.now) }
    ensures nothing { OnOk result ((S.state stepper.new).pending ≡ Pending.Nothing) }
{
    if let Standing::Finished { .. } = stepper.standing() {
        return Ok(false);
    }
    begin(stepper, alloc, &entry.event, &mut told.refusals)?;
    let mut moves = Vec::new(alloc);
    let Some(steps) = settled(stepper, alloc, &mut moves, &mut told.refusals)? else {
        stepper.give_up();
        told.refused_text.extend_from_slice(&moves)?;
        return Ok(false);
    };
    stepper.settle();
    push_heading(alloc, 0, entry, &mut told.text)?;
    told.text.extend_from_slice(&moves)?;
    told.steps = told.steps.saturating_add(u64::from(steps));
    push_rest(stepper, alloc, flat, &mut told.text)?;
    Ok(true)
}

// Steps until the world is quiet, tells the moves of each step, and answers in how many; None where they are too many.
fn settled<S: Stepper>(
    stepper: &mut S,
    alloc: Global,
    moves: &mut Vec<u8>,
    refusals: &mut u64,
) -> Result<Option<u32>, NoMemory>
    requires pending { IsTrue (is_pending (S.state stepper.old).pending) }
    ensures quiet { IfOk result (λ settled. IfSome settled
        (λ _. IsTrue (is_quiet (S.state stepper.new).nodes (S.state stepper.new).world))) }
    ensures pending { OnOk result ((S.state stepper.new).pending ≡ (S.state stepper.old).pending) }
{
    for taken in 0..STEP_LIMIT + 1 {
        if !step(stepper, alloc, refusals)? {
            push_quiet(alloc, taken, moves)?;
            return Ok(Some(taken));
        }
        if taken < TOLD_STEPS {
            push_step(alloc, taken + 1, stepper.moves(), moves)?;
        }
    }
    Ok(None)
}

// Tells how the plan stands, and in preorder the state of each node.
fn push_rest<S: Stepper>(
    stepper: &S,
    alloc: Global,
    flat: &Flat,
    text: &mut Vec<u8>,
) -> Result<(), NoMemory> {
    push_standing(alloc, &stepper.standing(), text)?;
    for node in 0..flat.nodes() {
        if let Some(state) = stepper.state_of(&flat.row(node).path) {
            text.extend_from_slice(state.word().as_bytes())?;
        }
        text.push(b'\n')?;
    }
    Ok(())
}
