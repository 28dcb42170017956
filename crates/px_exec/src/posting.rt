// The post of an event.
ghost use Rattle.std.specs.Prelude.{◌≡◌, IsTrue, IsErrOf};
ghost use Rattle.px_event.specs.Fit.{is_fit_entry};
ghost use Rattle.px_exec.specs.Answers.{entry_of, answered, Posts};
ghost use Rattle.px_exec.specs.Crash.{AddsAtMost};
ghost use Rattle.px_exec.specs.declared.fault.PostFault.TheVariants as faults;

use crate::answering::{Unanswered, answer};
use crate::closing::{close, closed_after};
use crate::copies::{log_reply, prepare};
use crate::exec::Exec;
use crate::fault::PostFault;
use crate::receipt::Receipt;
use px_event::{Event, Reply};
use px_ports::Disk;
use px_sem::{Standing, Stepper};
use std::alloc::Global;

impl<S: Stepper, D: Disk> Exec<S, D> {
    /// Posts an event for a line of a thread, from 1 to 8. After `Ok` the event is the last of the history, and each
    /// image of a crash from then on has it.
    ///
    /// The answers are tried in this order. `Closed` comes exactly where an earlier post was answered `DiskFault`;
    /// `PlanFinished` where the root has finished; `Full` where the history has at least as many events as it may have;
    /// `Runaway` where the event doesn't settle; `DiskFault` just where a call of the disk failed, and closes the
    /// executive. `NoMemory` may come in place of each but `Closed`, and before any call of the disk. `Ok` and the three
    /// refusals over the history are logged.
    pub fn post(
        &mut self,
        alloc: Global,
        thread: u8,
        line: u32,
        event: &Event,
    ) -> Result<Receipt, PostFault>
        requires fit { IsTrue (is_fit_entry (entry_of thread line event.now)) }
        ensures answers { Posts S.Stepper D.Disk self.old self.new (entry_of thread line event.now) result }
        ensures crash { AddsAtMost D.Disk (IsErrOf result faults.DiskFault) (entry_of thread line event.now)
            self.old.journal self.new.journal }
    {
        if let Some(faults) = closed_after(&self.failed) {
            return Err(PostFault::Closed { faults });
        }
        let copies = prepare(alloc, thread, line, event, &mut self.history, &mut self.log)?;
        match answer(
            &mut self.stepper,
            alloc,
            &mut self.journal,
            self.opening.limit,
            self.history.len() as u32,
            &copies.for_log,
        ) {
            Ok(reply) => {
                log_reply(&mut self.history, &mut self.log, copies, reply);
                told(reply, self.opening.limit, self.stepper.standing())
            }
            Err(Unanswered::DiskFault) => {
                close(&mut self.failed, copies, self.journal.faults());
                Err(PostFault::DiskFault)
            }
            Err(Unanswered::NoMemory) => {
                drop(copies);
                Err(PostFault::NoMemory)
            }
        }
    }
}

/// What the poster is told of a reply.
fn told(reply: Reply, limit: u32, standing: Standing) -> Result<Receipt, PostFault>
    ensures { result ≡ answered reply limit standing }
{
    match reply {
        Reply::Accepted { position } => Ok(Receipt { position, standing }),
        Reply::PlanFinished => Err(PostFault::PlanFinished),
        Reply::Full => Err(PostFault::Full { limit }),
        Reply::Runaway => Err(PostFault::Runaway),
    }
}
