// The end of a command with a journal: what a script has left is worked off, and the text of the log printed.
ghost use Rattle.std.specs.Prelude.{◌≡◌, ◌<◌, ◌^◌, ◌++◌, ℕ, List, None, [], length, IsTrue};
ghost use Rattle.std.specs.List.{list_all};
ghost use Rattle.px_event.specs.Fit.{is_fit_entry};
ghost use Rattle.px_event.specs.declared.entry.Entry.{Entry as Logged};
ghost use Rattle.px_exec.specs.Executive.{IsTextOf};
ghost use Rattle.px_output.specs.Printing.{Prints};
ghost use Rattle.px_output.specs.View.{view, KeepsFiles, OnlyPrints};
ghost use Rattle.px_script.specs.Fit.{IsFitScript};
ghost use Rattle.px_sem.specs.Log.{accepted, HasRun};
ghost use Rattle.px_run.specs.Finishing.{Finishes};
ghost use Rattle.px_run.specs.Telling.{told_text};

use crate::stop::Stop;
use px_ending::{End, Refusal};
use px_event::Entry;
use px_exec::Exec;
use px_output::{PrintFault, print_log, print_stalled, print_summary};
use px_ports::{Disk, Host};
use px_script::{CrewEnd, Pace, Script};
use px_sem::{LogEntry, Stepper};
use px_session::{Posted, post_rest};
use std::alloc::Global;
use std::sync::Wait;
use std::thread::Threads;

/// What is printed of a session whose lines are all passed.
#[derive(Clone, Copy)]
pub enum Telling {
    /// The text of its log.
    Text,
    /// The summary of a soak.
    Summary,
}

/// What a command has come to, and the disk that it was handed.
#[derive(Drop)]
pub struct Carried<D> {
    /// How it was carried out, or why it wasn't.
    pub result: Result<End, Stop>,
    /// The disk, handed back.
    pub disk: D,
}

/// Lets the script's threads post to an executive that no post has reached, each from a thread of its own, and prints the
/// text of its log, and the waits at which threads stand, or its summary. Where an append fails, nothing is printed but the
/// refusal.
pub fn finish<H: Host, D: Disk + Send, S: Stepper + Send, P: Pace, R: Threads + Wait + Sync>(
    rt: &R,
    alloc: Global,
    exec: Exec<S, D>,
    script: &Script,
    telling: Telling,
    host: &mut H,
    pace: &P,
) -> Carried<D>
    requires lines { IsFitScript script.now }
    requires open { exec.failed ≡ None }
    requires fresh { exec.log ≡ [] }
    ensures finishes { (text : List ℕ) → IsTextOf D.Disk exec text
        → Finishes D.Disk S.Stepper telling text exec script.now.threads (view H.Host host.old) (view H.Host host.new) result }
    ensures keeps { KeepsFiles (view H.Host host.old) (view H.Host host.new) }
{
    let Posted {
        disk,
        stepper,
        history,
        log,
        end,
    } = post_rest(rt, alloc, exec, script, pace);
    let mut stepper = stepper;
    let result = match end {
        CrewEnd::Done => match print_whole(alloc, telling, &mut stepper, &history, &log, host) {
            Ok(()) => Ok(End::Done),
            Err(fault) => Err(fault.into()),
        },
        CrewEnd::Stalled { waits } => {
            match print_stalled(alloc, &mut stepper, &history, &log, &waits, host) {
                Ok(()) => Ok(End::Stalled),
                Err(fault) => Err(fault.into()),
            }
        }
        CrewEnd::Disk => Err(Stop::Refused(Refusal::DiskFault)),
        CrewEnd::NoMemory => Err(Stop::NoMemory),
    };
    Carried { result, disk }
}

// Prints the text of a log that goes on from a history, or its summary. The stepper has run the history.
fn print_whole<H: Host, S: Stepper>(
    alloc: Global,
    telling: Telling,
    stepper: &mut S,
    history: &[Entry],
    log: &[LogEntry],
    host: &mut H,
) -> Result<(), PrintFault>
    requires events { IsTrue (list_all is_fit_entry history.now) }
    requires within { length history.now < 2 ^ 32 }
    requires runs { HasRun (S.state stepper.old).nodes history.now (S.state stepper.old) }
    ensures prints { (before : List Logged) → history.now ≡ before ++ accepted log.now
        → Prints (view H.Host host.old) [] (view H.Host host.new) []
        (told_text telling (S.state stepper.old).nodes before log.now) result }
    ensures only { OnlyPrints (view H.Host host.old) (view H.Host host.new) }
{
    match telling {
        Telling::Text => print_log(alloc, stepper, history, log, host),
        Telling::Summary => print_summary(alloc, stepper, history, log, host),
    }
}
