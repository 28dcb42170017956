// The lines of the names: the interface that each event of a journal came through.
ghost use Rattle.std.specs.Prelude.{◌≡◌, ◌++◌, OnOk, OnErr};
ghost use Rattle.std.specs.Option.{option_copied};
ghost use Rattle.px_trace.specs.Appending.{Keeps};
ghost use Rattle.px_trace.specs.Names.{name_text, name_line};

use crate::append::{keep_or_truncate, push_all};
use crate::events::push_source;
use itoa::Buffer;
use px_event::Entry;
use px_value::{Name, NoMemory};
use std::alloc::Global;

/// Appends the line of the name of an event at its position in the history, counted from 1: the position, the thread, the
/// line, and the interface that it came through, or `-` where that has no name.
///
/// After `NoMemory` the text is as before.
pub fn push_name(
    _alloc: Global,
    position: u32,
    entry: &Entry,
    name: Option<&Name>,
    out: &mut Vec<u8>,
) -> Result<(), NoMemory>
    ensures ok { OnOk result (out.new.items ≡ out.old.items
        ++ name_line position (record { name = option_copied name.entry; entry = entry.now })) }
    ensures err { OnErr result (out.new.items ≡ out.old.items) }
{
    let before = out.len();
    let pushed = push_line(position, entry, name, out);
    keep_or_truncate(pushed, before, out)
}

fn push_line(
    position: u32,
    entry: &Entry,
    name: Option<&Name>,
    out: &mut Vec<u8>,
) -> Result<(), NoMemory>
    ensures ok { OnOk result (out.new.items ≡ out.old.items
        ++ name_line position (record { name = option_copied name.entry; entry = entry.now })) }
    ensures err { OnErr result (Keeps out.old.items out.new.items) }
{
    push_all(out, &["event ", Buffer::new().format(position), ": "])?;
    push_source(entry.thread, entry.line, out)?;
    push_all(out, &[" ", text_of(name), "\n"])
}

// A name, or `-` where there is none.
fn text_of(name: Option<&Name>) -> &str
    ensures { result.now ≡ name_text (option_copied name.entry) }
{
    match name {
        Some(name) => name.as_str(),
        None => "-",
    }
}
