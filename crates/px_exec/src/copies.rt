// An answered entry in the log, and in the history where it is accepted.
//
// All that takes memory comes first: two copies of the entry, and the room for them. So behind an append nothing can
// fail.
ghost use Rattle.std.specs.Prelude.{◌≡◌, ◌<◌, ◌+◌, ◌^◌, [], ◌∷◌, ◌++◌, IfOk, OnOk, vec_len, vec_capacity};
ghost use Rattle.px_sem.specs.Log.{accepted};
ghost use Rattle.px_exec.specs.Answers.{entry_of, logged};

use crate::room::{make_room, push_in_room};
use px_event::{Entry, Event, Reply};
use px_sem::LogEntry;
use px_value::NoMemory;
use std::alloc::Global;

/// An entry twice, since the log and the history each keep one.
#[derive(Drop)]
pub(crate) struct Copies {
    pub(crate) for_log: Entry,
    pub(crate) for_history: Entry,
}

/// Copies the entry of an event, and makes room for it in the history and the log.
pub(crate) fn prepare(
    alloc: Global,
    thread: u8,
    line: u32,
    event: &Event,
    history: &mut Vec<Entry>,
    log: &mut Vec<LogEntry>,
) -> Result<Copies, NoMemory>
    ensures for_log { IfOk result (λ copies. copies.for_log ≡ entry_of thread line event.now) }
    ensures for_history { IfOk result (λ copies. copies.for_history ≡ entry_of thread line event.now) }
    ensures history { history.new.items ≡ history.old.items }
    ensures log { log.new.items ≡ log.old.items }
    ensures history_room { OnOk result (vec_len history.new < vec_capacity history.new) }
    ensures log_room { OnOk result (vec_len log.new < vec_capacity log.new) }
    ensures few { OnOk result (vec_len log.new + 1 < 2 ^ 32) }
{
    make_room(history)?;
    make_room(log)?;
    copy_twice(alloc, thread, line, event)
}

fn copy_twice(alloc: Global, thread: u8, line: u32, event: &Event) -> Result<Copies, NoMemory>
    ensures for_log { IfOk result (λ copies. copies.for_log ≡ entry_of thread line event.now) }
    ensures for_history { IfOk result (λ copies. copies.for_history ≡ entry_of thread line event.now) }
{
    let for_log = Entry {
        thread,
        line,
        event: event.copy(alloc)?,
    };
    let for_history = for_log.copy(alloc)?;
    Ok(Copies {
        for_log,
        for_history,
    })
}

/// Puts an entry with its reply behind the log, and behind the history where it was accepted.
pub(crate) fn log_reply(
    history: &mut Vec<Entry>,
    log: &mut Vec<LogEntry>,
    copies: Copies,
    reply: Reply,
)
    requires same { copies.for_history ≡ copies.for_log }
    requires history_room { vec_len history.old < vec_capacity history.old }
    requires log_room { vec_len log.old < vec_capacity log.old }
    ensures history { history.new.items ≡ history.old.items ++ accepted (logged copies.for_log reply ∷ []) }
    ensures log { log.new.items ≡ log.old.items ++ logged copies.for_log reply ∷ [] }
{
    let Copies {
        for_log,
        for_history,
    } = copies;
    match reply {
        Reply::Accepted { .. } => push_in_room(history, for_history),
        _ => drop(for_history),
    }
    push_in_room(
        log,
        LogEntry {
            entry: for_log,
            reply,
        },
    );
}
