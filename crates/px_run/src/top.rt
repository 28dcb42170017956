// The program as a whole: from the words to the status.
ghost use Rattle.std.specs.Prelude.{◌≡◌, None, map};
ghost use Rattle.std.specs.String.{string_bytes};
ghost use Rattle.px_output.specs.View.{view, OnlyPrints, KeepsFiles};
ghost use Rattle.px_words.specs.Words.{command};
ghost use Rattle.px_run.specs.Causes.{Cause, IsComplete, RefusesFiles, IsHandedBack};
ghost use Rattle.px_run.specs.Top.{Performed};
ghost use Rattle.px_run.specs.Headline.{Headline, Delivers, IsBoundFor};
ghost use Rattle.px_ending.specs.Statuses.{number_of, ending_of};

use crate::check::check;
use crate::dry_run::dry_run;
use crate::finishing::Carried;
use crate::format::format;
use crate::names::names;
use crate::resume::resume;
use crate::run::run;
use crate::soak::soak;
use crate::stop::Stop;
use crate::trace::trace;
use crate::trace_start::trace_start;
use px_ending::{Refusal, Status};
use px_output::emit_all;
use px_ports::{Disk, Host};
use px_script::Pace;
use px_sem::Stepper;
use px_words::Command;
use std::alloc::Global;
use std::sync::Wait;
use std::thread::Threads;

/// How a call has ended, and the disk that it was handed.
#[derive(Drop)]
pub struct Done<D> {
    /// The status that the process ends with.
    pub status: u8,
    /// The disk, handed back.
    pub disk: D,
}

/// The program over any stepper: does what the words ask for, which are those after the program's own name, and
/// answers the status that the process ends with. All text goes to the host's sink. The disk has
/// no name yet, and gets that of the journal where the command has one. `run`, `resume` and `soak` let
/// each thread of a script post from a thread of its own.
///
/// | Status | Comes |
/// |---|---|
/// | 0 | the command was carried out to its end |
/// | 2 | the words are no command |
/// | 3 | the plan's file has over 1,048,576 bytes, or spells no plan that can be run |
/// | 4 | the script's file has over 16,777,216 bytes, or a faulty line |
/// | 5 | a journal stands where `run` or `soak` is to make one; or none stands where `resume`, `trace` and `names` need one, or it is damaged; or, but for `names`, its plan can't be run or its history runs away |
/// | 6 | the start of the plan does not settle |
/// | 7 | the plan's or the script's file could not be read |
/// | 8 | the sink failed, or took nothing |
/// | 9 | a call of the disk failed |
/// | 10 | memory ran out |
/// | 11 | lines of the script are left, and each thread that has some stands at a wait that isn't met |
pub fn plexil_over<H: Host, D: Disk + Send, S: Stepper + Send, P: Pace, R: Threads + Wait + Sync>(
    rt: &R,
    alloc: Global,
    words: &[String],
    host: &mut H,
    disk: D,
    pace: &P,
) -> Done<D>
    requires unbound { D.bound_to disk ≡ None }

    // What was emitted is the text that the words and the files call for, or a front of it, and what became of the journal.
    ensures headline { Headline D.Disk (map string_bytes words.now)
        (view H.Host host.old) (view H.Host host.new) disk result.disk result.status }
    ensures files { H.files host.new ≡ H.files host.old }
    ensures bound { IsBoundFor D.Disk (command (map string_bytes words.now)) result.disk }
    ensures handed_back { IsHandedBack D.Disk disk result.disk result.status }

    // What each status tells, when the command is carried out, and when its files are refused.
    ensures causes { Cause D.Disk (map string_bytes words.now)
        (view H.Host host.old) (view H.Host host.new) disk result.disk result.status }
    ensures complete { IsComplete D.Disk (map string_bytes words.now)
        (view H.Host host.old) (view H.Host host.new) disk result.disk result.status }
    ensures refused { RefusesFiles D.Disk (map string_bytes words.now)
        (view H.Host host.old) (view H.Host host.new) disk result.disk result.status }
{
    // What each status tells follows from the headline alone, so it is shown here, apart from the body.
    ended::<H, D, S, P, R>(rt, alloc, words, host, disk, pace)
}

fn ended<H: Host, D: Disk + Send, S: Stepper + Send, P: Pace, R: Threads + Wait + Sync>(
    rt: &R,
    alloc: Global,
    words: &[String],
    host: &mut H,
    disk: D,
    pace: &P,
) -> Done<D>
    requires unbound { D.bound_to disk ≡ None }
    ensures headline { Headline D.Disk (map string_bytes words.now)
        (view H.Host host.old) (view H.Host host.new) disk result.disk result.status }
    ensures files { H.files host.new ≡ H.files host.old }
    ensures bound { IsBoundFor D.Disk (command (map string_bytes words.now)) result.disk }
    ensures handed_back { IsHandedBack D.Disk disk result.disk result.status }
{
    let Carried { result, disk } = carry_out::<H, D, S, P, R>(rt, alloc, words, host, disk, pace);
    let status = match result {
        Ok(end) => end.status(),
        Err(Stop::Refused(refusal)) => refuse(alloc, refusal, host),
        Err(Stop::SinkFailed) => Status::SinkFault,
        Err(Stop::NoMemory) => Status::NoMemory,
    };
    Done {
        status: status.number(),
        disk,
    }
}

fn carry_out<H: Host, D: Disk + Send, S: Stepper + Send, P: Pace, R: Threads + Wait + Sync>(
    rt: &R,
    alloc: Global,
    words: &[String],
    host: &mut H,
    disk: D,
    pace: &P,
) -> Carried<D>
    requires unbound { D.bound_to disk ≡ None }
    ensures performs { Performed D.Disk (command (map string_bytes words.now))
        (view H.Host host.old) (view H.Host host.new) disk result }
    ensures keeps { KeepsFiles (view H.Host host.old) (view H.Host host.new) }
{
    let asked = match Command::of(alloc, words) {
        Ok(asked) => asked,
        Err(_) => {
            return Carried {
                result: Err(Stop::NoMemory),
                disk,
            };
        }
    };
    let result = match asked {
        None => Err(Stop::Refused(Refusal::Usage)),
        Some(Command::TraceStart { plan }) => trace_start::<H, S>(alloc, plan, host),
        Some(Command::DryRun { plan, script }) => dry_run::<H, S>(alloc, plan, script, host),
        Some(Command::Check { plan }) => check(alloc, plan, host),
        Some(Command::Format { plan }) => format(alloc, plan, host),
        Some(
            Command::Run {
                plan,
                script,
                journal,
                limit,
            },
        ) => {
            return run::<H, D, S, P, R>(rt, alloc, plan, script, journal, limit, host, disk, pace);
        }
        Some(
            Command::Resume {
                script,
                journal,
                limit,
            },
        ) => {
            return resume::<H, D, S, P, R>(rt, alloc, script, journal, limit, host, disk, pace);
        }
        Some(Command::Trace { journal }) => return trace::<H, D, S>(alloc, journal, host, disk),
        Some(Command::Names { journal }) => return names(alloc, journal, host, disk),
        Some(
            Command::Soak {
                count,
                seed,
                journal,
            },
        ) => return soak::<H, D, S, P, R>(rt, alloc, count, seed, journal, host, disk, pace),
    };
    Carried { result, disk }
}

// Prints the reason, and answers the status: that of the refusal, or of the sink where it fails.
fn refuse<H: Host>(alloc: Global, refusal: Refusal, host: &mut H) -> Status
    ensures delivers { Delivers (view H.Host host.old) (view H.Host host.new)
        (ending_of refusal) (number_of result) }
    ensures only { OnlyPrints (view H.Host host.old) (view H.Host host.new) }
{
    let Ok(text) = refusal.text(alloc) else {
        return Status::NoMemory;
    };
    match emit_all(host, text.as_bytes()) {
        Ok(()) => refusal.status(),
        Err(_) => Status::SinkFault,
    }
}
