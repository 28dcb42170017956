// The lines of the waits at which threads stand.
ghost use Rattle.std.specs.Prelude.{◌≡◌, ◌++◌, OnOk, OnErr};
ghost use Rattle.px_sem.specs.Text.{cond_text, stall_line};
ghost use Rattle.px_trace.specs.Appending.{Keeps};

use crate::append::{keep_or_truncate, push_all};
use crate::events::push_source;
use itoa::Buffer;
use px_event::Cond;
use px_value::NoMemory;
use std::alloc::Global;

/// Appends the line of a thread, from 1 to 8, that stands at a wait: the thread, the line's number, and the wait as a
/// script spells it, with single blanks.
///
/// After `NoMemory` the text is as before.
pub fn push_stall(
    _alloc: Global,
    thread: u8,
    line: u32,
    cond: &Cond,
    out: &mut Vec<u8>,
) -> Result<(), NoMemory>
    ensures ok { OnOk result (out.new.items ≡ out.old.items ++ stall_line thread line cond.now) }
    ensures err { OnErr result (out.new.items ≡ out.old.items) }
{
    let before = out.len();
    let pushed = push_line(thread, line, cond, out);
    keep_or_truncate(pushed, before, out)
}

fn push_line(thread: u8, line: u32, cond: &Cond, out: &mut Vec<u8>) -> Result<(), NoMemory>
    ensures ok { OnOk result (out.new.items ≡ out.old.items ++ stall_line thread line cond.now) }
    ensures err { OnErr result (Keeps out.old.items out.new.items) }
{
    push_all(out, &["stalled "])?;
    push_source(thread, line, out)?;
    push_all(out, &[": wait "])?;
    push_cond(cond, out)?;
    push_all(out, &["\n"])
}

fn push_cond(cond: &Cond, out: &mut Vec<u8>) -> Result<(), NoMemory>
    ensures ok { OnOk result (out.new.items ≡ out.old.items ++ cond_text cond.now) }
    ensures err { OnErr result (Keeps out.old.items out.new.items) }
{
    match cond {
        Cond::State { node, state } => {
            push_all(out, &["state ", node.as_str(), " "])?;
            push_all(out, &[state.word()])
        }
        Cond::Events { least } => push_all(out, &["events ", Buffer::new().format(*least)]),
    }
}
