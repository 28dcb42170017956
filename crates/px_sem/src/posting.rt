// The posting of events to a settled stepper.
ghost use Rattle.std.specs.Prelude.{◌≡◌, ◌≤◌, ◌++◌, ◌∷◌, Some, [], length, map, IsTrue, IfOk, OnOk, OnErr};
ghost use Rattle.std.specs.List.{list_all};
ghost use Rattle.px_event.specs.Fit.{is_fit_event, is_fit_entry};
ghost use Rattle.px_sem.specs.Log.{events_of, accepted, answer, world_after, AnswersEach, PostsPart};
ghost use Rattle.px_sem.specs.Run.{run};
ghost use Rattle.px_sem.specs.Stepper.{Pending, settled_state};

use crate::offering::{Offered, offer};
use crate::{LogEntry, Stepper};
use px_event::{Entry, Event, Reply};
use px_value::NoMemory;
use std::alloc::Global;

/// What posts have come to.
#[derive(Drop)]
pub struct Posted {
    /// The accepted entries, in order.
    pub history: Vec<Entry>,
    /// All entries with their replies, in order.
    pub log: Vec<LogEntry>,
}

impl Posted {
    /// Puts an entry with its reply behind the others, and where it was accepted into the history.
    pub fn note(&mut self, alloc: Global, entry: Entry, reply: Reply) -> Result<(), NoMemory>
        ensures log { OnOk result (self.new.log.items
            ≡ self.old.log.items ++ (record { entry = entry; reply = reply }) ∷ []) }
        ensures history { OnOk result (self.new.history.items
            ≡ self.old.history.items ++ accepted ((record { entry = entry; reply = reply }) ∷ [])) }
    {
        keep(alloc, &mut self.history, &entry, reply)?;
        self.log.push(LogEntry { entry, reply })?;
        Ok(())
    }
}

// An entry that was accepted goes behind the others.
fn keep(
    alloc: Global,
    history: &mut Vec<Entry>,
    entry: &Entry,
    reply: Reply,
) -> Result<(), NoMemory>
    ensures { OnOk result (history.new.items
        ≡ history.old.items ++ accepted ((record { entry = entry.now; reply = reply }) ∷ [])) }
{
    let Reply::Accepted { .. } = reply else {
        return Ok(());
    };
    history.push(entry.copy(alloc)?)?;
    Ok(())
}

/// Posts an event to a settled stepper that has taken so many events, of which a history has at most `limit`, and
/// answers what has become of it. An event that is refused leaves the world as it was, and so does `NoMemory`.
pub fn post<S: Stepper>(
    stepper: &mut S,
    alloc: Global,
    limit: u32,
    count: u32,
    event: &Event,
) -> Result<Reply, NoMemory>
    requires nothing { (S.state stepper.old).pending ≡ Pending.Nothing }
    requires fit { IsTrue (is_fit_event event.now) }
    ensures reply { IfOk result (λ reply. reply
        ≡ answer (S.state stepper.old).nodes limit count (S.state stepper.old).world event.now) }
    ensures state { IfOk result (λ reply. S.state stepper.new
        ≡ settled_state (S.state stepper.old).nodes
        (world_after (S.state stepper.old).nodes (S.state stepper.old).world event.now reply)) }
    ensures err { OnErr result (S.state stepper.new ≡ S.state stepper.old) }
{
    match offer(stepper, alloc, limit, count, event)? {
        Offered::Refused(reply) => Ok(reply),
        Offered::Pending { position } => {
            stepper.settle();
            Ok(Reply::Accepted { position })
        }
    }
}

/// Posts entries one after another to a stepper that has taken no event since the start. The log is legal for a
/// history of at most `limit` events, and the world is the run over the accepted ones. After `NoMemory` the stepper is
/// settled still, and its world is the run over the accepted ones of a front of the entries.
pub fn post_each<S: Stepper>(
    stepper: &mut S,
    alloc: Global,
    limit: u32,
    entries: Vec<Entry>,
) -> Result<Posted, NoMemory>
    requires nothing { (S.state stepper.old).pending ≡ Pending.Nothing }
    requires started { run (S.state stepper.old).nodes [] ≡ Some (S.state stepper.old).world }
    requires fit { IsTrue (list_all is_fit_entry entries.items) }
    ensures each { IfOk result (λ posted. map (λ logged. logged.entry) posted.log.items ≡ entries.items) }
    ensures legal { IfOk result (λ posted. AnswersEach (S.state stepper.old).nodes limit [] posted.log.items) }
    ensures history { IfOk result (λ posted. posted.history.items ≡ accepted posted.log.items) }
    ensures within { IfOk result (λ posted. length posted.history.items ≤ limit) }
    ensures runs { IfOk result (λ posted.
        run (S.state stepper.old).nodes (events_of posted.history.items) ≡ Some (S.state stepper.new).world) }
    ensures rest { S.state stepper.new
        ≡ settled_state (S.state stepper.old).nodes (S.state stepper.new).world }
    ensures part { OnErr result
        (PostsPart (S.state stepper.old).nodes limit entries.items (S.state stepper.new).world) }
{
    let mut posted = Posted {
        history: Vec::new(alloc),
        log: Vec::with_capacity(alloc, entries.len())?,
    };
    for entry in entries {
        let count = posted.history.len() as u32;
        let reply = post(stepper, alloc, limit, count, &entry.event)?;
        posted.note(alloc, entry, reply)?;
    }
    Ok(posted)
}
