// Events that are begun and taken back, as those are that run away.
ghost use Rattle.std.specs.Prelude.{◌≡◌, IsTrue, OnOk};
ghost use Rattle.std.specs.List.{list_all};
ghost use Rattle.px_event.specs.Fit.{is_fit_entry};
ghost use Rattle.px_sem.specs.Stepper.{Pending, is_event};

use crate::stepping::{begin, step};
use px_event::Entry;
use px_sem::Stepper;
use px_value::NoMemory;
use std::alloc::Global;

// After how many micro steps at most an event is taken back: after none, one and so on up to one less, in turn.
const STEPS: u32 = 7;

/// Begins each of these events and takes it back some micro steps later, whether the world is quiet then or not.
pub(crate) fn take_back_each<S: Stepper>(
    stepper: &mut S,
    alloc: Global,
    entries: &[Entry],
    refusals: &mut u64,
) -> Result<(), NoMemory>
    requires nothing { (S.state stepper.old).pending ≡ Pending.Nothing }
    requires fit { IsTrue (list_all is_fit_entry entries.now) }
    ensures nothing { OnOk result ((S.state stepper.new).pending ≡ Pending.Nothing) }
{
    let mut steps = 0;
    for entry in entries {
        begin(stepper, alloc, &entry.event, refusals)?;
        go_on(stepper, alloc, steps, refusals)?;
        stepper.give_up();
        steps = (steps + 1) % STEPS;
    }
    Ok(())
}

// Takes so many micro steps, or fewer where the world is quiet.
fn go_on<S: Stepper>(
    stepper: &mut S,
    alloc: Global,
    steps: u32,
    refusals: &mut u64,
) -> Result<(), NoMemory>
    requires event { IsTrue (is_event (S.state stepper.old).pending) }
    ensures event { OnOk result (IsTrue (is_event (S.state stepper.new).pending)) }
{
    for _ in 0..steps {
        if !step(stepper, alloc, refusals)? {
            break;
        }
    }
    Ok(())
}
