// An entry that is answered by a stepper and kept by a journal.
//
// The event is offered first, since one that is refused is not to be journaled. The append comes before the stepper
// settles, so that a fault of the disk can still be taken back; after it nothing takes memory or can fail.
ghost use Rattle.std.specs.Prelude.{◌≡◌, ◌≤◌, ◌+◌, [], ◌∷◌, ◌++◌, ℕ, List, length, IsTrue, IsFalse, IfOk, OnErr, IsErrOf};
ghost use Rattle.px_event.specs.Fit.{is_fit_entry};
ghost use Rattle.px_event.specs.declared.entry.Entry.{Entry as AnyEntry};
ghost use Rattle.px_event.specs.declared.named.NamedEntry.{NamedEntry as AnyNamed};
ghost use Rattle.px_event.specs.declared.reply.Reply.TheVariants.{Accepted};
ghost use Rattle.px_journal.specs.Journal.{IsReady, IsReadyAs, with_name};
ghost use Rattle.px_sem.specs.Log.{answer, world_after, is_accepted};
ghost use Rattle.px_sem.specs.Stepper.{Pending, settled_state};
ghost use Rattle.px_exec.specs.Crash.{AddsAtMost};

use px_event::{Entry, Reply};
use px_journal::Journal;
use px_ports::Disk;
use px_sem::{Offered, Stepper, offer};
use std::alloc::Global;

/// Why an entry has no reply.
#[derive(Clone, Copy, Debug)]
pub(crate) enum Unanswered {
    DiskFault,
    NoMemory,
}

/// Answers an entry over a history of so many events, of which there may be at most `limit`, and appends it to the
/// journal where it is accepted. Without a reply the world is as it was.
pub(crate) fn answer<S: Stepper, D: Disk>(
    stepper: &mut S,
    alloc: Global,
    journal: &mut Journal<D>,
    limit: u32,
    count: u32,
    entry: &Entry,
) -> Result<Reply, Unanswered>
    requires nothing { (S.state stepper.old).pending ≡ Pending.Nothing }
    requires fit { IsTrue (is_fit_entry entry.now) }
    requires within { limit ≤ 100000 }
    requires ready { (text : List ℕ) × (history : List AnyEntry) × IsReady D.Disk journal.old text history }
    requires count { count ≡ journal.old.count }

    ensures due { IfOk result (λ reply. reply
        ≡ answer (S.state stepper.old).nodes limit count (S.state stepper.old).world entry.now.event) }
    ensures state { IfOk result (λ reply. S.state stepper.new ≡ settled_state (S.state stepper.old).nodes
        (world_after (S.state stepper.old).nodes (S.state stepper.old).world entry.now.event reply)) }
    ensures kept { IfOk result (λ reply. IsTrue (is_accepted reply) → (text : List ℕ) (history : List AnyEntry)
        → IsReady D.Disk journal.old text history → IsReady D.Disk journal.new text (history ++ entry.now ∷ [])) }
    ensures named { IfOk result (λ reply. IsTrue (is_accepted reply) → (text : List ℕ) (named : List AnyNamed)
        → IsReadyAs D.Disk journal.old text named
        → IsReadyAs D.Disk journal.new text (named ++ with_name journal.old entry.now ∷ [])) }
    ensures refused { IfOk result (λ reply. IsFalse (is_accepted reply) → journal.new ≡ journal.old) }

    ensures err { OnErr result (S.state stepper.new ≡ S.state stepper.old) }
    ensures no_memory { IsErrOf result Unanswered.NoMemory → journal.new ≡ journal.old }
    ensures was_due { IsErrOf result Unanswered.DiskFault → answer (S.state stepper.old).nodes limit count
        (S.state stepper.old).world entry.now.event ≡ Accepted (count + 1) }

    ensures crash { AddsAtMost D.Disk (IsErrOf result Unanswered.DiskFault) entry.now journal.old journal.new }
{
    let position = match offer(stepper, alloc, limit, count, &entry.event) {
        Ok(Offered::Refused(reply)) => return Ok(reply),
        Ok(Offered::Pending { position }) => position,
        Err(_) => return Err(Unanswered::NoMemory),
    };
    match journal.append(entry) {
        Ok(()) => {
            stepper.settle();
            Ok(Reply::Accepted { position })
        }
        Err(_) => {
            stepper.give_up();
            Err(Unanswered::DiskFault)
        }
    }
}
