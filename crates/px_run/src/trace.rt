// The command `trace`: reads a journal, and prints the trace of its history.
ghost use Rattle.std.specs.Prelude.{◌≡◌, None};
ghost use Rattle.px_output.specs.View.{view, KeepsFiles};
ghost use Rattle.px_run.specs.Trace.{TraceCarries};

use crate::finishing::Carried;
use px_ending::End;
use px_exec::Parts;
use px_output::print_log;
use px_ports::{Disk, Host};
use px_sem::Stepper;
use px_session::{ReopenFault, Reopened, reopen};
use px_words::EVENT_LIMIT;
use std::alloc::Global;

/// Prints the trace of the journal of this name on the disk, and how its plan stands. Nothing is written.
pub fn trace<H: Host, D: Disk, S: Stepper>(
    alloc: Global,
    journal: &str,
    host: &mut H,
    disk: D,
) -> Carried<D>
    requires unbound { D.bound_to disk ≡ None }
    ensures traces { TraceCarries D.Disk journal.now (view H.Host host.old) (view H.Host host.new) disk result }
    ensures keeps { KeepsFiles (view H.Host host.old) (view H.Host host.new) }
{
    let Reopened { plan, exec } = match reopen::<S, D>(alloc, disk, journal, EVENT_LIMIT) {
        Ok(reopened) => reopened,
        Err(ReopenFault { disk, why }) => {
            return Carried {
                result: Err(why.into()),
                disk,
            };
        }
    };
    drop(plan);
    exec.keeps();
    let Parts {
        stepper,
        journal,
        history,
        log: _,
    } = exec.into_parts();
    let mut stepper = stepper;
    let disk = journal.into_disk();
    match print_log(alloc, &mut stepper, &history, &[], host) {
        Ok(()) => Carried {
            result: Ok(End::Done),
            disk,
        },
        Err(fault) => Carried {
            result: Err(fault.into()),
            disk,
        },
    }
}
