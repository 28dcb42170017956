// The command `resume`: takes a journal up, lets a script's threads post what they have left behind its history, and prints
// the text of the log.
ghost use Rattle.std.specs.Prelude.{◌≡◌, ◌≤◌, None, IfOk, IfErr};
ghost use Rattle.px_core.specs.Fit.{IsFit};
ghost use Rattle.px_core.specs.Plan.{tree_of, sites};
ghost use Rattle.px_output.specs.View.{view, KeepsFiles, OnlyReads};
ghost use Rattle.px_run.specs.Resume.{ResumeCarries, IsLeft};
ghost use Rattle.px_run.specs.Kinds.{script_file};
ghost use Rattle.px_run.specs.Stops.{StopsReading};

use crate::finishing::{Carried, Telling, finish};
use crate::naming::without_names;
use crate::reading::fetch_script;
use crate::stop::Stop;
use px_core::Plan;
use px_event::Entry;
use px_ports::{Disk, Host};
use px_script::{Pace, Script, rest};
use px_sem::Stepper;
use px_session::{ReopenFault, reopen};
use std::alloc::Global;
use std::sync::Wait;
use std::thread::Threads;

/// Goes on with the journal of this name on the disk: posts what the script in the file has left behind the journal's
/// history, which may grow to `limit` events, from 1 to 100,000, and prints the text of the whole. In a journal of the second
/// version the new entries get the script's names.
pub fn resume<H: Host, D: Disk + Send, S: Stepper + Send, P: Pace, R: Threads + Wait + Sync>(
    rt: &R,
    alloc: Global,
    script: &str,
    journal: &str,
    limit: u32,
    host: &mut H,
    disk: D,
    pace: &P,
) -> Carried<D>
    requires unbound { D.bound_to disk ≡ None }
    requires least { 1 ≤ limit }
    requires most { limit ≤ 100000 }
    ensures resumes { ResumeCarries D.Disk script.now journal.now limit (view H.Host host.old) (view H.Host host.new) disk result }
    ensures keeps { KeepsFiles (view H.Host host.old) (view H.Host host.new) }
{
    let mut reopened = match reopen::<S, D>(alloc, disk, journal, limit) {
        Ok(reopened) => reopened,
        Err(ReopenFault { disk, why }) => {
            return Carried {
                result: Err(why.into()),
                disk,
            };
        }
    };
    match script_left(alloc, script, &reopened.plan, reopened.exec.history(), host) {
        Ok(left) => {
            let (left, names) = without_names(alloc, left);
            reopened.rename(names);
            finish(rt, alloc, reopened.exec, &left, Telling::Text, host, pace)
        }
        Err(stop) => Carried {
            result: Err(stop),
            disk: reopened.exec.into_parts().journal.into_disk(),
        },
    }
}

/// What the script in a file has left behind a history.
fn script_left<H: Host>(
    alloc: Global,
    script: &str,
    plan: &Plan,
    history: &[Entry],
    host: &mut H,
) -> Result<Script, Stop>
    requires { IsFit (tree_of plan.now) }
    ensures ok { IfOk result (λ left. IsLeft (sites (tree_of plan.now)) script.now history.now
        (view H.Host host.old) (view H.Host host.new) left) }
    ensures err { IfErr result
        (StopsReading (script_file (sites (tree_of plan.now))) (view H.Host host.old) (view H.Host host.new) script.now) }
    ensures only { OnlyReads (view H.Host host.old) (view H.Host host.new) }
{
    let script = fetch_script(alloc, script, plan, host)?;
    Ok(rest(alloc, script, history)?)
}
