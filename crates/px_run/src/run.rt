// The command `run`: reads a plan and a script, makes a journal, lets the script's threads post, and prints the text of the
// log.
ghost use Rattle.std.specs.Prelude.{◌≡◌, ◌≤◌, ℕ, List, None, [], Some, length, IfOk, IfErr};
ghost use Rattle.px_core.specs.Fit.{IsFit};
ghost use Rattle.px_core.specs.Plan.{tree_of};
ghost use Rattle.px_output.specs.View.{View, view, KeepsFiles, OnlyReads};
ghost use Rattle.px_script.specs.Fit.{IsFitScript};
ghost use Rattle.px_sem.specs.Run.{run};
ghost use Rattle.px_sem.specs.Stepper.{Pending};
ghost use Rattle.px_run.specs.Kinds.{plan_file};
ghost use Rattle.px_run.specs.Reading.{Reads, with_text};
ghost use Rattle.px_run.specs.Run.{IsPrepared, IsNotPrepared, RunCarries, PreparedCarries};

use crate::finishing::{Carried, Telling, finish};
use crate::naming::without_names;
use crate::reading::{Source, fetch_script, fetch_source};
use crate::stop::Stop;
use px_core::Plan;
use px_journal::CreateFault;
use px_ports::{Disk, Host};
use px_script::{Pace, Script};
use px_sem::{Stepper, start};
use px_session::create;
use std::alloc::Global;
use std::sync::Wait;
use std::thread::Threads;

/// What is to run: a plan's text, the script, and a stepper that has settled the start of the plan.
#[derive(Drop)]
pub(crate) struct Prepared<S: Stepper> {
    pub(crate) text: Vec<u8>,
    pub(crate) script: Script,
    pub(crate) stepper: S,
}

/// Runs the plan in one file by the script in another, with a journal of this name on the disk, whose history may grow to
/// `limit` events, from 1 to 100,000. The disk isn't touched before plan and script are read and the plan has started.
pub fn run<H: Host, D: Disk + Send, S: Stepper + Send, P: Pace, R: Threads + Wait + Sync>(
    rt: &R,
    alloc: Global,
    plan: &str,
    script: &str,
    journal: &str,
    limit: u32,
    host: &mut H,
    disk: D,
    pace: &P,
) -> Carried<D>
    requires unbound { D.bound_to disk ≡ None }
    requires least { 1 ≤ limit }
    requires most { limit ≤ 100000 }
    ensures runs { RunCarries D.Disk plan.now script.now journal.now limit (view H.Host host.old) (view H.Host host.new) disk result }
    ensures keeps { KeepsFiles (view H.Host host.old) (view H.Host host.new) }
{
    match prepare::<H, S>(alloc, plan, script, host) {
        Ok(prepared) => run_prepared(
            rt,
            alloc,
            prepared,
            journal,
            limit,
            Telling::Text,
            host,
            disk,
            pace,
        ),
        Err(stop) => Carried {
            result: Err(stop),
            disk,
        },
    }
}

/// Reads plan and script, and starts the plan.
fn prepare<H: Host, S: Stepper>(
    alloc: Global,
    plan: &str,
    script: &str,
    host: &mut H,
) -> Result<Prepared<S>, Stop>
    ensures ok { IfOk result (IsPrepared S.Stepper plan.now script.now (view H.Host host.old) (view H.Host host.new)) }
    ensures err { IfErr result (IsNotPrepared plan.now script.now (view H.Host host.old) (view H.Host host.new)) }
    ensures only { OnlyReads (view H.Host host.old) (view H.Host host.new) }
{
    let Source { text, plan } = fetch_source(alloc, plan, host)?;
    let prepared = prepare_plan(alloc, text, &plan, script, host);
    // By name: the proof then has one call to follow, and not each shape that a plan may have.
    drop(plan);
    prepared
}

/// Reads the script for a plan that was read with its text, and starts the plan.
fn prepare_plan<H: Host, S: Stepper>(
    alloc: Global,
    text: Vec<u8>,
    plan: &Plan,
    script: &str,
    host: &mut H,
) -> Result<Prepared<S>, Stop>
    requires fit { IsFit (tree_of plan.now) }
    requires short { length text.items ≤ 1048576 }
    ensures ok { (name : List ℕ) (before : View) → Reads (with_text plan_file) before (view H.Host host.old) name (text.items, tree_of plan.now)
        → OnlyReads before (view H.Host host.old) → IfOk result (IsPrepared S.Stepper name script.now before (view H.Host host.new)) }
    ensures err { (name : List ℕ) (before : View) → Reads (with_text plan_file) before (view H.Host host.old) name (text.items, tree_of plan.now)
        → OnlyReads before (view H.Host host.old) → IfErr result (IsNotPrepared name script.now before (view H.Host host.new)) }
    ensures only { OnlyReads (view H.Host host.old) (view H.Host host.new) }
{
    let script = fetch_script(alloc, script, plan, host)?;
    let stepper = start(alloc, plan)?;
    Ok(Prepared {
        text,
        script,
        stepper,
    })
}

/// Makes the journal, lets the script's threads post, and prints the text of the log, or its summary.
pub(crate) fn run_prepared<
    H: Host,
    D: Disk + Send,
    S: Stepper + Send,
    P: Pace,
    R: Threads + Wait + Sync,
>(
    rt: &R,
    alloc: Global,
    prepared: Prepared<S>,
    journal: &str,
    limit: u32,
    telling: Telling,
    host: &mut H,
    disk: D,
    pace: &P,
) -> Carried<D>
    requires unbound { D.bound_to disk ≡ None }
    requires least { 1 ≤ limit }
    requires most { limit ≤ 100000 }
    requires short { length prepared.text.items ≤ 1048576 }
    requires lines { IsFitScript prepared.script }
    requires nothing { (S.state prepared.stepper).pending ≡ Pending.Nothing }
    requires started { run (S.state prepared.stepper).nodes [] ≡ Some (S.state prepared.stepper).world }

    ensures runs { PreparedCarries D.Disk telling (S.state prepared.stepper).nodes prepared.text.items journal.now limit prepared.script
        (view H.Host host.old) (view H.Host host.new) disk result }
    ensures keeps { KeepsFiles (view H.Host host.old) (view H.Host host.new) }
{
    let Prepared {
        text,
        script,
        stepper,
    } = prepared;
    let (script, names) = without_names(alloc, script);
    match create(alloc, disk, journal, &text, stepper, limit, names) {
        Ok(exec) => finish(rt, alloc, exec, &script, telling, host, pace),
        Err(CreateFault { disk, why }) => Carried {
            result: Err(why.into()),
            disk,
        },
    }
}
