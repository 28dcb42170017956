// The command `soak`: runs a plan of its own over a script that it makes from two numbers, with a journal, and prints a
// summary.
ghost use Rattle.std.specs.Prelude.{◌≡◌, ◌≤◌, None, IfOk, IfErr};
ghost use Rattle.px_compile.specs.Compiled.{IsCompiled};
ghost use Rattle.px_core.specs.Fit.{IsFit};
ghost use Rattle.px_core.specs.Plan.{tree_of};
ghost use Rattle.px_output.specs.View.{view, KeepsFiles};
ghost use Rattle.px_run.specs.Soak.{soak_plan, IsSoakPrepared, IsSoakNotPrepared, SoakCarries};

use crate::finishing::{Carried, Telling};
use crate::run::{Prepared, run_prepared};
use crate::stop::Stop;
use px_compile::compile;
use px_core::Plan;
use px_ports::{Disk, Host};
use px_script::{Pace, soak_script};
use px_sem::{Stepper, start};
use px_value::NoMemory;
use px_words::EVENT_LIMIT;
use std::alloc::{AllocError, Global};
use std::sync::Wait;
use std::thread::Threads;

/// The plan of a soak: it adds up what is reported, and takes each report that is greater than the last that it has seen.
const PLAN: &str = "Soak: Sequence {
  Integer seen = 0;
  Integer sum = 0;
  Start Lookup(level) > seen;
  Repeat true;
  Add: { sum = sum + Lookup(level) % 100; }
  Note: { seen = Lookup(level); }
}
";

/// Runs the plan of a soak over so many lines, from 1 to 100,000, that are made from the seed, with a journal of this name on
/// the disk, and prints the summary of the log. The disk isn't touched before the plan has started.
pub fn soak<H: Host, D: Disk + Send, S: Stepper + Send, P: Pace, R: Threads + Wait + Sync>(
    rt: &R,
    alloc: Global,
    count: u32,
    seed: u32,
    journal: &str,
    host: &mut H,
    disk: D,
    pace: &P,
) -> Carried<D>
    requires unbound { D.bound_to disk ≡ None }
    requires least { 1 ≤ count }
    requires most { count ≤ 100000 }
    ensures soaks { SoakCarries D.Disk count seed journal.now (view H.Host host.old) (view H.Host host.new) disk result }
    ensures keeps { KeepsFiles (view H.Host host.old) (view H.Host host.new) }
{
    match prepare::<S>(alloc, count, seed) {
        Ok(prepared) => run_prepared(
            rt,
            alloc,
            prepared,
            journal,
            EVENT_LIMIT,
            Telling::Summary,
            host,
            disk,
            pace,
        ),
        Err(stop) => Carried {
            result: Err(stop),
            disk,
        },
    }
}

/// Makes the script, and starts the plan.
fn prepare<S: Stepper>(alloc: Global, count: u32, seed: u32) -> Result<Prepared<S>, Stop>
    requires least { 1 ≤ count }
    requires most { count ≤ 100000 }
    ensures ok { IfOk result (IsSoakPrepared S.Stepper count seed) }
    ensures err { IfErr result IsSoakNotPrepared }
{
    let text = Vec::from_slice(alloc, PLAN.as_bytes())?;
    let script = soak_script(alloc, count, seed)?;
    let plan = plan(alloc)?;
    let stepper = start(alloc, &plan)?;
    Ok(Prepared {
        text,
        script,
        stepper,
    })
}

// The plan itself.
fn plan(alloc: Global) -> Result<Plan, NoMemory>
    ensures compiled { IfOk result (λ plan. IsCompiled soak_plan (tree_of plan)) }
    ensures fit { IfOk result (λ plan. IsFit (tree_of plan)) }
{
    match compile(alloc, PLAN.as_bytes()) {
        Ok(plan) => Ok(plan),
        // Its text is a plan, so that only memory can be wanting.
        Err(_) => Err(AllocError),
    }
}
