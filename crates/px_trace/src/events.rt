// The texts of events, and of where they come from.
ghost use Rattle.std.specs.Prelude.{◌≡◌, ◌++◌, codes, OnOk, OnErr};
ghost use Rattle.px_sem.specs.Text.{event_text, state_text, source_text};
ghost use Rattle.px_trace.specs.Appending.{Keeps};

use crate::append::push_all;
use crate::values::{push_arguments, push_value};
use itoa::Buffer;
use px_event::Event;
use px_value::{Name, NoMemory, Value};

/// Appends a blank, and an event as a script spells it, with single blanks.
pub(crate) fn push_event(event: &Event, out: &mut Vec<u8>) -> Result<(), NoMemory>
    ensures ok { OnOk result (out.new.items ≡ out.old.items ++ (codes " " ++ event_text event.now)) }
    ensures err { OnErr result (Keeps out.old.items out.new.items) }
{
    match event {
        Event::Report { name, args, value } => {
            push_all(out, &[" set "])?;
            push_state(name, args.as_slice(), out)?;
            push_all(out, &[" = "])?;
            push_value(value, out)
        }
        Event::Handle { node, handle } => {
            push_all(out, &[" handle ", node.as_str(), " "])?;
            push_all(out, &[handle.word()])
        }
        Event::Return { node, value } => {
            push_all(out, &[" return ", node.as_str(), " "])?;
            push_value(value, out)
        }
        Event::AbortDone { node } => push_all(out, &[" abort ", node.as_str()]),
        Event::Acknowledged { node } => push_all(out, &[" ack ", node.as_str()]),
    }
}

/// Appends the thread and the line that a post comes from.
pub(crate) fn push_source(thread: u8, line: u32, out: &mut Vec<u8>) -> Result<(), NoMemory>
    ensures ok { OnOk result (out.new.items ≡ out.old.items ++ source_text thread line) }
    ensures err { OnErr result (out.new.items ≡ out.old.items) }
{
    let (mut thread_digits, mut line_digits) = (Buffer::new(), Buffer::new());
    let (thread, line) = (thread_digits.format(thread), line_digits.format(line));
    push_all(out, &["thread ", thread, " line ", line])
}

fn push_state(name: &Name, args: &[Value], out: &mut Vec<u8>) -> Result<(), NoMemory>
    ensures ok { OnOk result (out.new.items ≡ out.old.items ++ state_text name.now args.now) }
    ensures err { OnErr result (Keeps out.old.items out.new.items) }
{
    push_all(out, &[name.as_str()])?;
    if args.is_empty() {
        Ok(())
    } else {
        push_arguments(args, out)
    }
}
