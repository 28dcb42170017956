// A session that goes on: the journal that stands on a disk, its plan, and the executive that has run its history.
ghost use Rattle.std.specs.Prelude.{◌≡◌, ◌≤◌, ℕ, List, [], None, Some, length, IfOk, IfErr, IsSome};
ghost use Rattle.px_compile.specs.Compiled.{IsCompiled};
ghost use Rattle.px_core.specs.Fit.{IsFit};
ghost use Rattle.px_core.specs.Plan.{tree_of, sites};
ghost use Rattle.px_event.specs.declared.entry.Entry.{Entry as Logged};
ghost use Rattle.px_exec.specs.Executive.{plan_of};
ghost use Rattle.px_exec.specs.Opening.{IsUnposted, Renames};
ghost use Rattle.px_journal.specs.Journal.{IsReady};
ghost use Rattle.px_sem.specs.Log.{events_of};
ghost use Rattle.px_sem.specs.Run.{run};
ghost use Rattle.px_sem.specs.Stepper.{Pending};
ghost use Rattle.px_session.specs.Reopening.{IsRunWhy, Reopens, IsNotReopened};
ghost use Rattle.px_session.specs.Session.{IsOpening};

use crate::fault::{ReopenFault, ReopenWhy};
use crate::reading::read_journal;
use px_compile::compile;
use px_core::Plan;
use px_event::Names;
use px_exec::{Exec, OpenFault};
use px_journal::{RecoverFault, Recovered};
use px_ports::Disk;
use px_sem::{Stepper, start};
use std::alloc::Global;

/// A journal that was taken up.
#[derive(Drop)]
pub struct Reopened<S: Stepper, D: Disk> {
    /// The plan that the journal's text spells.
    pub plan: Plan,
    /// The executive that has run the journal's history.
    pub exec: Exec<S, D>,
}

impl<S: Stepper, D: Disk> Reopened<S, D> {
    /// Sets the names that further entries are kept with, where the journal is of the second version. It comes before the
    /// first post, takes no memory, and leaves all else as it is.
    pub fn rename(&mut self, names: Names)
        requires { IsUnposted self.old.exec }
        ensures kept { (name : List ℕ) (limit : ℕ) (disk : D) → Reopens D.Disk S.Stepper name limit disk self.old
            → Reopens D.Disk S.Stepper name limit disk self.new }
        ensures plan { self.new.plan ≡ self.old.plan }
        ensures renamed { Renames D.Disk names self.old.exec self.new.exec }
    {
        self.exec.rename(names);
    }
}

/// A plan, and a stepper that has settled its start.
#[derive(Drop)]
struct Started<S: Stepper> {
    plan: Plan,
    stepper: S,
}

/// Binds the disk to the journal's name, reads the journal there, compiles its plan and runs its history. The history may
/// grow to `limit` events, from 1 to 100,000. Nothing is written.
///
/// The first of these that refuses decides the error: `DiskFault`, only where a call of the disk failed; `NoJournal` and
/// `Damaged`, by the disk's bytes; `PlanRefused`, `RunawayAtStart` and `Runaway`, by the journal's text and history; or
/// `NoMemory`.
pub fn reopen<S: Stepper, D: Disk>(
    alloc: Global,
    disk: D,
    name: &str,
    limit: u32,
) -> Result<Reopened<S, D>, ReopenFault<D>>
    requires unbound { D.bound_to disk ≡ None }
    requires least { 1 ≤ limit }
    requires most { limit ≤ 100000 }

    ensures reopened { IfOk result (Reopens D.Disk S.Stepper name.now limit disk) }
    ensures refused { IfErr result (IsNotReopened D.Disk name.now disk) }
{
    match read_journal(alloc, disk, name) {
        Ok(recovered) => run_recovered(alloc, recovered, limit),
        Err(RecoverFault { disk, why }) => Err(ReopenFault {
            disk,
            why: why.into(),
        }),
    }
}

/// Compiles the plan of a journal that was read, and runs its history.
fn run_recovered<S: Stepper, D: Disk>(
    alloc: Global,
    recovered: Recovered<D>,
    limit: u32,
) -> Result<Reopened<S, D>, ReopenFault<D>>
    requires ready { IsReady D.Disk recovered.journal recovered.plan.items recovered.history.items }
    requires least { 1 ≤ limit }
    requires most { limit ≤ 100000 }

    ensures compiled { IfOk result (λ reopened. IsCompiled recovered.plan.items (tree_of reopened.plan)) }
    ensures fit { IfOk result (λ reopened. IsFit (tree_of reopened.plan)) }
    ensures nodes { IfOk result (λ reopened. plan_of S.Stepper reopened.exec ≡ sites (tree_of reopened.plan)) }
    ensures settles { IfOk result (λ reopened. IsSome (run (sites (tree_of reopened.plan)) (events_of recovered.history.items))) }
    ensures opening { IfOk result (λ reopened. IsOpening recovered.journal recovered.history.items limit reopened.exec) }
    ensures handed_back { IfErr result (λ fault. fault.disk ≡ recovered.journal.disk) }
    ensures why { IfErr result (λ fault. IsRunWhy recovered.plan.items recovered.history.items fault.why) }
{
    let Recovered {
        journal,
        plan: text,
        history,
        ..
    } = recovered;
    let Started { plan, stepper } = match start_text(alloc, &text) {
        Ok(started) => started,
        Err(why) => {
            return Err(ReopenFault {
                disk: journal.into_disk(),
                why,
            });
        }
    };
    match Exec::open(alloc, journal, stepper, history, limit) {
        Ok(exec) => Ok(Reopened { plan, exec }),
        Err(OpenFault { journal, why }) => {
            // By name: the proof then has one call to follow, and not each shape that a plan may have.
            drop(plan);
            Err(ReopenFault {
                disk: journal.into_disk(),
                why: why.into(),
            })
        }
    }
}

/// The plan that a text spells, and a stepper that has settled its start.
fn start_text<S: Stepper>(alloc: Global, text: &[u8]) -> Result<Started<S>, ReopenWhy>
    requires short { length text.now ≤ 1048576 }

    ensures compiled { IfOk result (λ made. IsCompiled text.now (tree_of made.plan)) }
    ensures fit { IfOk result (λ made. IsFit (tree_of made.plan)) }
    ensures nodes { IfOk result (λ made. (S.state made.stepper).nodes ≡ sites (tree_of made.plan)) }
    ensures nothing { IfOk result (λ made. (S.state made.stepper).pending ≡ Pending.Nothing) }
    ensures started { IfOk result (λ made. run (S.state made.stepper).nodes [] ≡ Some (S.state made.stepper).world) }
    ensures why { (history : List Logged) → IfErr result (IsRunWhy text.now history) }
{
    let plan = compile(alloc, text)?;
    match start(alloc, &plan) {
        Ok(stepper) => Ok(Started { plan, stepper }),
        Err(fault) => {
            // By name, as above.
            drop(plan);
            Err(fault.into())
        }
    }
}
