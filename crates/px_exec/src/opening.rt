// The opening of an executive: the run over the history that its journal stands for.
ghost use Rattle.std.specs.Prelude.{◌≡◌, ◌≤◌, [], ℕ, List, Some, length, IsTrue, IfOk, IfErr, OnOk};
ghost use Rattle.std.specs.List.{list_all};
ghost use Rattle.px_event.specs.Fit.{is_fit_entry};
ghost use Rattle.px_journal.specs.Journal.{IsReady};
ghost use Rattle.px_sem.specs.Log.{events_of};
ghost use Rattle.px_sem.specs.Run.{run};
ghost use Rattle.px_sem.specs.Stepper.{Pending, settled_state};
ghost use Rattle.px_exec.specs.Opening.{IsWhy, IsNotOpened, Opens};

use crate::exec::{Exec, Opening};
use crate::fault::{OpenFault, OpenWhy};
use px_event::Entry;
use px_journal::Journal;
use px_ports::Disk;
use px_sem::{StepFault, Stepper};
use std::alloc::Global;
use std::snapshot::Snapshot;

impl<S: Stepper, D: Disk> Exec<S, D> {
    /// Runs the history of a journal on a stepper that has settled the start. The log is empty, and no call of the disk
    /// is made.
    ///
    /// `Runaway` comes exactly where an event of the history doesn't settle, and names the first. The journal has to
    /// stand for the history, and no append of it may have failed; the limit is from 1 to 100,000.
    pub fn open(
        alloc: Global,
        journal: Journal<D>,
        stepper: S,
        history: Vec<Entry>,
        limit: u32,
    ) -> Result<Exec<S, D>, OpenFault<D>>
        requires nothing { (S.state stepper).pending ≡ Pending.Nothing }
        requires started { run (S.state stepper).nodes [] ≡ Some (S.state stepper).world }
        requires ready { (text : List ℕ) × IsReady D.Disk journal text history.items }
        requires least { 1 ≤ limit }
        requires most { limit ≤ 100000 }

        ensures opens { IfOk result (Opens S.Stepper
            (record { stepper = stepper; journal = journal; history = history.items; limit = limit })) }
        ensures refused { IfErr result (IsNotOpened (S.state stepper).nodes journal history.items) }
    {
        let opening = Opening {
            stepper: Snapshot::of(&stepper),
            journal: Snapshot::of(&journal),
            history: Snapshot::of(&history),
            limit,
        };
        let mut stepper = stepper;
        match run_history(&mut stepper, alloc, &history) {
            Ok(()) => Ok(Exec {
                stepper,
                journal,
                history,
                log: Vec::new(alloc),
                failed: None,
                opening,
            }),
            Err(why) => Err(OpenFault { journal, why }),
        }
    }
}

/// Takes each event of the history, and settles.
fn run_history<S: Stepper>(stepper: &mut S, alloc: Global, history: &[Entry]) -> Result<(), OpenWhy>
    requires nothing { (S.state stepper.old).pending ≡ Pending.Nothing }
    requires started { run (S.state stepper.old).nodes [] ≡ Some (S.state stepper.old).world }
    requires fit { IsTrue (list_all is_fit_entry history.now) }
    requires few { length history.now ≤ 100000 }

    ensures runs { OnOk result
        (run (S.state stepper.old).nodes (events_of history.now) ≡ Some (S.state stepper.new).world) }
    ensures rest { OnOk result
        (S.state stepper.new ≡ settled_state (S.state stepper.old).nodes (S.state stepper.new).world) }
    ensures why { IfErr result (IsWhy (S.state stepper.old).nodes history.now) }
{
    let mut at = 0;
    for entry in history {
        at += 1;
        match stepper.advance(alloc, &entry.event) {
            Ok(_) => stepper.settle(),
            Err(StepFault::Runaway) => return Err(OpenWhy::Runaway { at }),
            Err(StepFault::NoMemory) => return Err(OpenWhy::NoMemory),
        }
    }
    Ok(())
}
