// The command `dry-run`: reads a plan and a script, posts its lines by rising number, and prints the text of the log.
ghost use Rattle.std.specs.Prelude.{Some};
ghost use Rattle.px_core.specs.Fit.{IsFit};
ghost use Rattle.px_core.specs.Plan.{tree_of, sites};
ghost use Rattle.px_run.specs.Course.{AfterFile, Untouched};
ghost use Rattle.px_run.specs.Headline.{DryRunCalls, DryRunOf};
ghost use Rattle.px_run.specs.Kinds.{script_file};
ghost use Rattle.px_run.specs.Stops.{Performs};
ghost use Rattle.px_output.specs.View.{view, KeepsFiles};

use crate::reading::{fetch_plan, fetch_script};
use crate::stop::Stop;
use px_core::Plan;
use px_ending::End;
use px_output::{Draft, post_each_drafted, print_drafted, start_drafted};
use px_ports::Host;
use px_sem::Stepper;
use px_words::EVENT_LIMIT;
use std::alloc::Global;

/// Posts the lines of the script in one file to the plan in another, those of all threads by rising
/// number, and prints the text of the log. A start that does not settle is refused before any text.
pub fn dry_run<H: Host, S: Stepper>(
    alloc: Global,
    plan: &str,
    script: &str,
    host: &mut H,
) -> Result<End, Stop>
    ensures performs { Performs (view H.Host host.old) (view H.Host host.new)
        (DryRunCalls plan.now script.now (view H.Host host.old) (view H.Host host.new) Untouched) result }
    ensures keeps { KeepsFiles (view H.Host host.old) (view H.Host host.new) }
{
    let plan = fetch_plan(alloc, plan, host)?;
    let ended = dry_run_plan::<H, S>(alloc, &plan, script, host);
    // By name: the proof then has one call to follow, and not each shape that a plan may have.
    drop(plan);
    ended
}

fn dry_run_plan<H: Host, S: Stepper>(
    alloc: Global,
    plan: &Plan,
    script: &str,
    host: &mut H,
) -> Result<End, Stop>
    requires fit { IsFit (tree_of plan.now) }
    ensures performs { Performs (view H.Host host.old) (view H.Host host.new)
        (AfterFile (script_file (sites (tree_of plan.now))) (view H.Host host.old) (view H.Host host.new) script.now Untouched
        (λ read. DryRunOf (sites (tree_of plan.now)) read.threads) Untouched)
        result }
    ensures keeps { KeepsFiles (view H.Host host.old) (view H.Host host.new) }
{
    let entries = fetch_script(alloc, script, plan, host)?.into_entries(alloc)?;
    let mut draft = Draft::new(alloc);
    let mut stepper = start_drafted::<S>(alloc, plan, &mut draft)?;
    let posted = post_each_drafted(alloc, &mut stepper, EVENT_LIMIT, entries, &mut draft)?;
    print_drafted(
        alloc,
        &mut stepper,
        draft,
        &posted.history,
        &posted.log,
        host,
    )?;
    Ok(End::Done)
}
