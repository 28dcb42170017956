// The headings of events.
ghost use Rattle.std.specs.Prelude.{◌≡◌, ◌++◌, OnOk, OnErr};
ghost use Rattle.px_sem.specs.Text.{start_text, heading_text};
ghost use Rattle.px_trace.specs.Appending.{Keeps};

use crate::append::{keep_or_truncate, push_all};
use crate::events::{push_event, push_source};
use itoa::Buffer;
use px_event::Entry;
use px_value::NoMemory;
use std::alloc::Global;

/// Appends the heading of event 0, which is the start.
///
/// After `NoMemory` the text is as before.
pub fn push_start(_alloc: Global, out: &mut Vec<u8>) -> Result<(), NoMemory>
    ensures ok { OnOk result (out.new.items ≡ out.old.items ++ start_text) }
    ensures err { OnErr result (out.new.items ≡ out.old.items) }
{
    push_all(out, &["event 0: start\n"])
}

/// Appends the heading of an event at its position in the history, counted from 1: the position, the thread, the line,
/// and the event as a script spells it, with single blanks.
///
/// After `NoMemory` the text is as before.
pub fn push_heading(
    _alloc: Global,
    position: u32,
    entry: &Entry,
    out: &mut Vec<u8>,
) -> Result<(), NoMemory>
    ensures ok { OnOk result (out.new.items ≡ out.old.items ++ heading_text position entry.now) }
    ensures err { OnErr result (out.new.items ≡ out.old.items) }
{
    let before = out.len();
    let pushed = push_numbered(position, entry, out);
    keep_or_truncate(pushed, before, out)
}

fn push_numbered(position: u32, entry: &Entry, out: &mut Vec<u8>) -> Result<(), NoMemory>
    ensures ok { OnOk result (out.new.items ≡ out.old.items ++ heading_text position entry.now) }
    ensures err { OnErr result (Keeps out.old.items out.new.items) }
{
    push_all(out, &["event ", Buffer::new().format(position), ": "])?;
    push_source(entry.thread, entry.line, out)?;
    push_event(&entry.event, out)?;
    push_all(out, &["\n"])
}
