// The lines of the replies: what each post was answered.
ghost use Rattle.std.specs.Prelude.{◌≡◌, ◌++◌, codes, OnOk, OnErr};
ghost use Rattle.px_sem.specs.Text.{line, reply_text, reply_line};
ghost use Rattle.px_trace.specs.Appending.{Keeps};

use crate::append::{keep_or_truncate, push_all};
use crate::events::push_source;
use itoa::Buffer;
use px_event::Reply;
use px_value::NoMemory;
use std::alloc::Global;

/// A post as its line tells of it: the thread and the line that it comes from, and what it was answered.
#[derive(Clone, Copy)]
pub struct LoggedLine {
    pub thread: u8,
    pub line: u32,
    pub reply: Reply,
}

/// Appends the line of a post.
///
/// After `NoMemory` the text is as before.
pub fn push_reply(_alloc: Global, entry: &LoggedLine, out: &mut Vec<u8>) -> Result<(), NoMemory>
    ensures ok { OnOk result
        (out.new.items ≡ out.old.items ++ reply_line entry.now.thread entry.now.line entry.now.reply) }
    ensures err { OnErr result (out.new.items ≡ out.old.items) }
{
    let before = out.len();
    let pushed = push_line(entry, out);
    keep_or_truncate(pushed, before, out)
}

fn push_line(entry: &LoggedLine, out: &mut Vec<u8>) -> Result<(), NoMemory>
    ensures ok { OnOk result
        (out.new.items ≡ out.old.items ++ reply_line entry.now.thread entry.now.line entry.now.reply) }
    ensures err { OnErr result (Keeps out.old.items out.new.items) }
{
    push_source(entry.thread, entry.line, out)?;
    push_answer(entry.reply, out)
}

// Appends the answer behind a colon, to the end of the line.
fn push_answer(reply: Reply, out: &mut Vec<u8>) -> Result<(), NoMemory>
    ensures ok { OnOk result (out.new.items ≡ out.old.items ++ line (codes ": " ++ reply_text reply)) }
    ensures err { OnErr result (out.new.items ≡ out.old.items) }
{
    match reply {
        Reply::Accepted { position } => {
            push_all(out, &[": accepted ", Buffer::new().format(position), "\n"])
        }
        Reply::PlanFinished => push_all(out, &[": refused plan finished\n"]),
        Reply::Full => push_all(out, &[": refused full\n"]),
        Reply::Runaway => push_all(out, &[": refused runaway\n"]),
    }
}
