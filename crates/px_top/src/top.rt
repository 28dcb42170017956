// The program as a whole: from the words to the status.
ghost use Rattle.std.specs.Prelude.{◌≡◌, None, map};
ghost use Rattle.std.specs.String.{string_bytes};
ghost use Rattle.px_output.specs.View.{view};
ghost use Rattle.px_words.specs.Words.{command};
ghost use Rattle.px_run.specs.Causes.{Cause, IsComplete, RefusesFiles, IsHandedBack};
ghost use Rattle.px_run.specs.Headline.{Headline, IsBoundFor};

use px_machine::Machine;
use px_ports::{Disk, Host};
use px_run::{Done, plexil_over};
use px_script::Pace;
use std::alloc::Global;
use std::sync::Wait;
use std::thread::Threads;

/// The program: does what the words ask for, which are those after the program's own name, and
/// answers the status that the process ends with. All text goes to the host's sink. The disk has
/// no name yet, and gets that of the journal where the command has one. `run`, `resume` and `soak` let
/// each thread of a script post from a thread of its own.
///
/// | Status | Comes |
/// |---|---|
/// | 0 | the command was carried out to its end |
/// | 2 | the words are no command |
/// | 3 | the plan's file has over 1,048,576 bytes, or spells no plan that can be run |
/// | 4 | the script's file has over 16,777,216 bytes, or a faulty line |
/// | 5 | a journal stands where `run` or `soak` is to make one; or none stands where `resume`, `trace` and `names` need one, or it is damaged; or, but for `names`, its plan can't be run or its history runs away |
/// | 6 | the start of the plan does not settle |
/// | 7 | the plan's or the script's file could not be read |
/// | 8 | the sink failed, or took nothing |
/// | 9 | a call of the disk failed |
/// | 10 | memory ran out |
/// | 11 | lines of the script are left, and each thread that has some stands at a wait that isn't met |
pub fn plexil<H: Host, D: Disk + Send, P: Pace, R: Threads + Wait + Sync>(
    rt: &R,
    alloc: Global,
    words: &[String],
    host: &mut H,
    disk: D,
    pace: &P,
) -> Done<D>
    requires unbound { D.bound_to disk ≡ None }

    // What was emitted is the text that the words and the files call for, or a front of it, and what became of the journal.
    ensures headline { Headline D.Disk (map string_bytes words.now)
        (view H.Host host.old) (view H.Host host.new) disk result.disk result.status }
    ensures files { H.files host.new ≡ H.files host.old }
    ensures bound { IsBoundFor D.Disk (command (map string_bytes words.now)) result.disk }
    ensures handed_back { IsHandedBack D.Disk disk result.disk result.status }

    // What each status tells, when the command is carried out, and when its files are refused.
    ensures causes { Cause D.Disk (map string_bytes words.now)
        (view H.Host host.old) (view H.Host host.new) disk result.disk result.status }
    ensures complete { IsComplete D.Disk (map string_bytes words.now)
        (view H.Host host.old) (view H.Host host.new) disk result.disk result.status }
    ensures refused { RefusesFiles D.Disk (map string_bytes words.now)
        (view H.Host host.old) (view H.Host host.new) disk result.disk result.status }
{
    plexil_over::<H, D, Machine, P, R>(rt, alloc, words, host, disk, pace)
}
