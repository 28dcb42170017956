// What a line of a script says.
ghost use Rattle.std.specs.Prelude.{◌≡◌, IfOk};
ghost use Rattle.px_script.specs.Kinds.{plan_of};
ghost use Rattle.px_script.specs.ParsedLine.{said_in_text, said, is_silent, parsed_line};

use crate::fault::FaultKind;
use crate::kinds::Kinds;
use crate::node_line::{abort_line, ack_line, handle_line, return_line};
use crate::set_line::set_line;
use crate::text::{are_word, content, is_word, split_bytes, split_word};
use crate::thread_line::thread_line;
use crate::wait_line::wait_line;
use px_event::{Cond, Event};
use px_value::{Name, NoMemory};
use std::alloc::Global;
use std::str;

/// What a line says.
#[derive(Drop)]
pub(crate) enum ParsedLine {
    Nothing,
    /// The thread posts the event.
    Posts(Event),
    /// The thread goes on once the condition holds.
    Waits(Cond),
    /// The lines behind belong to this thread, and it has this name, if one is given.
    Thread { number: u8, name: Option<Name> },
    /// The line is at fault.
    Faulty(FaultKind),
}

/// Reads one line. Where it reports what was reported before, it shares that name's text.
pub(crate) fn read_line(
    alloc: Global,
    kinds: &Kinds,
    before: Option<&Name>,
    line: &[u8],
) -> Result<ParsedLine, NoMemory>
    ensures { IfOk result (λ says. says ≡ parsed_line (plan_of kinds.now) line.now) }
{
    let bytes = content(line);
    if is_silent(bytes) {
        return Ok(ParsedLine::Nothing);
    }
    match said(alloc, kinds, before, bytes)? {
        Some(says) => Ok(says),
        None => Ok(ParsedLine::Faulty(FaultKind::BadLine)),
    }
}

/// Whether a line is empty or a comment.
fn is_silent(text: &[u8]) -> bool
    ensures { result ≡ is_silent text.now }
{
    matches!(text, [] | [b'#', ..])
}

/// What the bytes of a line say; None exactly where they have none of the shapes of a line.
fn said(
    alloc: Global,
    kinds: &Kinds,
    before: Option<&Name>,
    bytes: &[u8],
) -> Result<Option<ParsedLine>, NoMemory>
    ensures { IfOk result (λ says. says ≡ said (plan_of kinds.now) bytes.now) }
{
    let (word, behind) = split_bytes(bytes);
    if are_word(word, "thread") {
        return thread_line(alloc, behind);
    }
    match str::from_utf8(bytes) {
        Ok(text) => said_in_text(alloc, kinds, before, text),
        Err(_) => Ok(None),
    }
}

/// What a text says by its first word, where that isn't `thread`; None exactly where it has none of the shapes of a line.
fn said_in_text(
    alloc: Global,
    kinds: &Kinds,
    before: Option<&Name>,
    text: &str,
) -> Result<Option<ParsedLine>, NoMemory>
    ensures { IfOk result (λ says. says ≡ said_in_text (plan_of kinds.now) text.now) }
{
    let (word, behind) = split_word(text);
    if is_word(word, "set") {
        set_line(alloc, before, behind)
    } else if is_word(word, "handle") {
        handle_line(alloc, kinds, behind)
    } else if is_word(word, "return") {
        return_line(alloc, kinds, behind)
    } else if is_word(word, "abort") {
        abort_line(alloc, kinds, behind)
    } else if is_word(word, "ack") {
        ack_line(alloc, kinds, behind)
    } else if is_word(word, "wait") {
        wait_line(alloc, kinds, behind)
    } else {
        Ok(None)
    }
}
