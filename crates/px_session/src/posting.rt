// The posts of a session: what a script has left is worked off, and the executive closed.
ghost use Rattle.std.specs.Prelude.{◌≡◌, List, None, []};
ghost use Rattle.px_crew.specs.Crew.{failed_entry, Ends};
ghost use Rattle.px_exec.specs.Executive.{Executive, plan_of};
ghost use Rattle.px_script.specs.Fit.{IsFitScript};
ghost use Rattle.px_script.specs.declared.todo.Todo.{Todo};
ghost use Rattle.px_session.specs.Posting.{Posts};

use px_crew::{Worked, work_together};
use px_event::Entry;
use px_exec::{Exec, Parts};
use px_ports::Disk;
use px_script::{CrewEnd, Pace, Script};
use px_sem::{LogEntry, Stepper};
use std::alloc::Global;
use std::sync::Wait;
use std::thread::Threads;

/// What the posts of a session have come to.
#[derive(Drop)]
pub struct Posted<S: Stepper, D> {
    /// The disk, handed back.
    pub disk: D,
    /// What runs the plan, settled behind the history.
    pub stepper: S,
    /// The accepted entries, those from before the session in front.
    pub history: Vec<Entry>,
    /// The posts of the session that were answered over the history, with their replies.
    pub log: Vec<LogEntry>,
    /// How the script's threads ended.
    pub end: CrewEnd,
}

/// Lets the threads of a script post to an executive that no post has reached, each from a thread of its own, and closes it.
/// Each post that is answered over the history is logged, those that are refused too; the first failure of the disk is the
/// end.
pub fn post_rest<S: Stepper + Send, D: Disk + Send, P: Pace, R: Threads + Wait + Sync>(
    rt: &R,
    alloc: Global,
    exec: Exec<S, D>,
    script: &Script,
    pace: &P,
) -> Posted<S, D>
    requires fit { IsFitScript script.now }
    requires open { exec.failed ≡ None }
    requires fresh { exec.log ≡ [] }
    ensures { Posts D.Disk S.Stepper exec script.now.threads result }
{
    let Worked { exec, end } = work_together(rt, alloc, exec, script, pace);
    close(exec, end)
}

/// Closes an executive over which the threads of a script have come to this end.
fn close<S: Stepper, D: Disk>(exec: Exec<S, D>, end: CrewEnd) -> Posted<S, D>
    ensures { (opened : Executive S D) (threads : List Todo) → exec.opening ≡ opened.opening
        → Ends (plan_of S.Stepper exec) exec.opening.history exec.log threads (failed_entry exec) end
        → Posts D.Disk S.Stepper opened threads result }
{
    exec.keeps();
    let Parts {
        stepper,
        journal,
        history,
        log,
    } = exec.into_parts();
    Posted {
        disk: journal.into_disk(),
        stepper,
        history,
        log,
        end,
    }
}
