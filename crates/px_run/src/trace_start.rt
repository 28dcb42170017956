// The command `trace-start`: reads a plan, and prints the run of its start.
ghost use Rattle.std.specs.Prelude.{Some};
ghost use Rattle.px_run.specs.Course.{Untouched};
ghost use Rattle.px_run.specs.Headline.{TraceStartCalls};
ghost use Rattle.px_run.specs.Stops.{Performs};
ghost use Rattle.px_output.specs.View.{view, KeepsFiles};

use crate::reading::fetch_plan;
use crate::stop::Stop;
use px_ending::End;
use px_output::{Draft, print_drafted, start_drafted};
use px_ports::Host;
use px_sem::Stepper;
use std::alloc::Global;
use std::mem::forget;

/// Prints the trace of the start of the plan in this file. A start that does not settle is refused
/// before any text.
pub fn trace_start<H: Host, S: Stepper>(
    alloc: Global,
    plan: &str,
    host: &mut H,
) -> Result<End, Stop>
    ensures performs { Performs (view H.Host host.old) (view H.Host host.new)
        (TraceStartCalls plan.now (view H.Host host.old) (view H.Host host.new) Untouched) result }
    ensures keeps { KeepsFiles (view H.Host host.old) (view H.Host host.new) }
{
    let plan = fetch_plan(alloc, plan, host)?;
    let mut draft = Draft::new(alloc);
    let mut stepper = start_drafted::<S>(alloc, &plan, &mut draft)?;
    print_drafted(alloc, &mut stepper, draft, &[], &[], host)?;
    // Left to the end of the process, since to free a large plan piece by piece takes a fifth of the time.
    forget(stepper);
    forget(plan);
    Ok(End::Done)
}
