// The bytes of an entry: its thread, its line, and its event behind a byte that says of which kind it is.
ghost use Rattle.std.specs.Prelude.{◌≡◌, ◌≢◌, ◌<◌, ◌∷◌, IsTrue, IfOk, IsErrOf};
ghost use Rattle.byteorder.specs.Endian.{big_bytes};
ghost use Rattle.px_event.specs.Appending.{Appends};
ghost use Rattle.px_event.specs.Bytes.{handle_code, event_bytes, entry_bytes};
ghost use Rattle.px_event.specs.Fit.{is_fit_event, is_fit_entry};
ghost use Rattle.px_event.specs.Reading.{Gives, Reads, name_at, path_at, handle_of, handle_at, report_at, handle_event_at, return_at, event_at, source_at, entry_at, decoded};
ghost use Rattle.px_event.specs.declared.entry.Entry.{Entry as AnyEntry};

use crate::bytes::fields::{Reader, push_tagged, push_u32};
use crate::bytes::values::{arguments_of, push_arguments, push_value, value_of};
use crate::entry::{Entry, THREAD_LIMIT};
use crate::event::{ARGUMENT_LIMIT, Event};
use crate::fault::DecodeFault;
use crate::values::Values;
use px_value::{Handle, Name, NameFault, NoMemory, Path, PathFault, Value, is_identifier};
use std::alloc::Global;

/// The most bytes of an entry: a report of a name of 64 bytes with eight texts of 1,024 bytes and one more as its value.
pub const ENTRY_LIMIT: usize = 9316;

const REPORT: u8 = 1;

const HANDLE: u8 = 2;

const RETURN: u8 = 3;

const ABORT_DONE: u8 = 4;

const ACKNOWLEDGED: u8 = 5;

/// The bytes of an entry.
pub fn encode(alloc: Global, entry: &Entry) -> Result<Vec<u8>, NoMemory>
    requires { IsTrue (is_fit_entry entry.now) }
    ensures { IfOk result (λ bytes. bytes.items ≡ entry_bytes entry.now) }
{
    let mut out = Vec::with_capacity(alloc, ENTRY_LIMIT)?;
    push_entry(&mut out, entry)?;
    Ok(out)
}

/// Appends the bytes of an entry. It succeeds where they have room. After an `Err` some of them may stand behind what
/// was there.
pub fn push_entry(out: &mut Vec<u8>, entry: &Entry) -> Result<(), NoMemory>
    requires { IsTrue (is_fit_entry entry.now) }
    ensures { Appends (entry_bytes entry.now) out.old out.new result }
{
    push_source(out, entry)?;
    push_event(out, &entry.event)
}

/// Appends the thread and the line of an entry.
pub(super) fn push_source(out: &mut Vec<u8>, entry: &Entry) -> Result<(), NoMemory>
    ensures { Appends (entry.now.thread ∷ big_bytes 4 entry.now.line) out.old out.new result }
{
    out.push(entry.thread)?;
    push_u32(out, entry.line)
}

/// Appends the bytes of an event.
#[tactic(auto, using(crate::proofs::Appends::begins_with))]
pub(super) fn push_event(out: &mut Vec<u8>, event: &Event) -> Result<(), NoMemory>
    requires { IsTrue (is_fit_event event.now) }
    ensures { Appends (event_bytes event.now) out.old out.new result }
{
    match event {
        Event::Report { name, args, value } => {
            push_tagged(out, REPORT, name.as_str())?;
            push_arguments(out, args.as_slice())?;
            push_value(out, value)
        }
        Event::Handle { node, handle } => {
            push_tagged(out, HANDLE, node.as_str())?;
            out.push(handle_code(*handle))?;
            Ok(())
        }
        Event::Return { node, value } => {
            push_tagged(out, RETURN, node.as_str())?;
            push_value(out, value)
        }
        Event::AbortDone { node } => push_tagged(out, ABORT_DONE, node.as_str()),
        Event::Acknowledged { node } => push_tagged(out, ACKNOWLEDGED, node.as_str()),
    }
}

fn handle_code(handle: Handle) -> u8
    ensures { result ≡ handle_code handle }
{
    match handle {
        Handle::CommandSentToSystem => 1,
        Handle::CommandAccepted => 2,
        Handle::CommandRcvdBySystem => 3,
        Handle::CommandFailed => 4,
        Handle::CommandDenied => 5,
        Handle::CommandSuccess => 6,
    }
}

/// The entry whose bytes these are.
///
/// `Bad` comes exactly where they are those of no entry.
pub fn decode(alloc: Global, bytes: &[u8]) -> Result<Entry, DecodeFault>
    ensures entry { IfOk result (λ entry. IsTrue (is_fit_entry entry) × (bytes.now ≡ entry_bytes entry)) }
    ensures bad { IsErrOf result DecodeFault.Bad → (entry : AnyEntry) → IsTrue (is_fit_entry entry)
        → bytes.now ≢ entry_bytes entry }
{
    read_whole(alloc, bytes)
}

/// The entry that is read of all the bytes.
#[tactic(auto, unfolding(crate::specs::Reading::decoded))]
fn read_whole(alloc: Global, bytes: &[u8]) -> Result<Entry, DecodeFault>
    ensures { Gives (λ entry. entry) (decoded bytes.now) result }
{
    let mut reader = Reader::new(bytes);
    let entry = entry_of(alloc, &mut reader)?;
    if !reader.is_at_end() {
        return Err(DecodeFault::Bad);
    }
    Ok(entry)
}

#[tactic(auto, unfolding(crate::specs::Reading::entry_at))]
fn entry_of(alloc: Global, reader: &mut Reader<'_>) -> Result<Entry, DecodeFault>
    ensures { Reads (λ entry. entry) (entry_at reader.old) result reader.new }
{
    let (thread, line) = source_of(reader)?;
    let event = event_of(alloc, reader)?;
    Ok(Entry {
        thread,
        line,
        event,
    })
}

/// The next thread and line.
#[tactic(auto, unfolding(crate::specs::Reading::source_at))]
pub(super) fn source_of(reader: &mut Reader<'_>) -> Result<(u8, u32), DecodeFault>
    ensures { Reads (λ source. source) (source_at reader.old) result reader.new }
{
    let thread = reader.byte()?;
    if thread < 1 || THREAD_LIMIT < thread {
        return Err(DecodeFault::Bad);
    }
    let line = reader.u32()?;
    if line < 1 {
        return Err(DecodeFault::Bad);
    }
    Ok((thread, line))
}

/// The next event.
#[tactic(auto, unfolding(crate::specs::Reading::event_at, crate::specs::Reading::event_behind))]
pub(super) fn event_of(alloc: Global, reader: &mut Reader<'_>) -> Result<Event, DecodeFault>
    ensures { Reads (λ event. event) (event_at reader.old) result reader.new }
{
    match reader.byte()? {
        REPORT => report_of(alloc, reader),
        HANDLE => handle_event_of(alloc, reader),
        RETURN => return_of(alloc, reader),
        ABORT_DONE => Ok(Event::AbortDone {
            node: path_of(alloc, reader)?,
        }),
        ACKNOWLEDGED => Ok(Event::Acknowledged {
            node: path_of(alloc, reader)?,
        }),
        _ => Err(DecodeFault::Bad),
    }
}

#[tactic(auto, unfolding(crate::specs::Reading::report_at))]
fn report_of(alloc: Global, reader: &mut Reader<'_>) -> Result<Event, DecodeFault>
    ensures { Reads (λ event. event) (report_at reader.old) result reader.new }
{
    let name = name_of(alloc, reader)?;
    let count = reader.byte()?;
    if usize::from(count) > ARGUMENT_LIMIT {
        return Err(DecodeFault::Bad);
    }
    let args = Values::from(arguments_of(alloc, count, reader)?);
    let value = value_of(alloc, reader)?;
    Ok(Event::Report { name, args, value })
}

#[tactic(auto, unfolding(crate::specs::Reading::handle_event_at))]
fn handle_event_of(alloc: Global, reader: &mut Reader<'_>) -> Result<Event, DecodeFault>
    ensures { Reads (λ event. event) (handle_event_at reader.old) result reader.new }
{
    let node = path_of(alloc, reader)?;
    let handle = handle_at(reader)?;
    Ok(Event::Handle { node, handle })
}

#[tactic(auto, unfolding(crate::specs::Reading::return_at))]
fn return_of(alloc: Global, reader: &mut Reader<'_>) -> Result<Event, DecodeFault>
    ensures { Reads (λ event. event) (return_at reader.old) result reader.new }
{
    let node = path_of(alloc, reader)?;
    let value = value_of(alloc, reader)?;
    Ok(Event::Return { node, value })
}

/// The name of what a report is about: an identifier.
#[tactic(auto, unfolding(crate::specs::Reading::name_at))]
fn name_of(alloc: Global, reader: &mut Reader<'_>) -> Result<Name, DecodeFault>
    ensures { Reads (λ name. name) (name_at reader.old) result reader.new }
{
    let text = reader.text()?;
    if !is_identifier(text.as_bytes()) {
        return Err(DecodeFault::Bad);
    }
    match Name::new(alloc, text) {
        Ok(name) => Ok(name),
        Err(NameFault::NotAName) => Err(DecodeFault::Bad),
        Err(NameFault::NoMemory) => Err(DecodeFault::NoMemory),
    }
}

#[tactic(auto, unfolding(crate::specs::Reading::path_at))]
fn path_of(alloc: Global, reader: &mut Reader<'_>) -> Result<Path, DecodeFault>
    ensures { Reads (λ path. path) (path_at reader.old) result reader.new }
{
    match Path::new(alloc, reader.text()?) {
        Ok(path) => Ok(path),
        Err(PathFault::NotAPath) => Err(DecodeFault::Bad),
        Err(PathFault::NoMemory) => Err(DecodeFault::NoMemory),
    }
}

#[tactic(auto, unfolding(crate::specs::Reading::handle_at))]
fn handle_at(reader: &mut Reader<'_>) -> Result<Handle, DecodeFault>
    ensures { Reads (λ handle. handle) (handle_at reader.old) result reader.new }
{
    handle_of(reader.byte()?).ok_or(DecodeFault::Bad)
}

/// The handle of a code.
#[tactic(auto, unfolding(crate::specs::Reading::handle_of))]
fn handle_of(code: u8) -> Option<Handle>
    ensures { result ≡ handle_of code }
{
    Some(match code {
        1 => Handle::CommandSentToSystem,
        2 => Handle::CommandAccepted,
        3 => Handle::CommandRcvdBySystem,
        4 => Handle::CommandFailed,
        5 => Handle::CommandDenied,
        6 => Handle::CommandSuccess,
        _ => return None,
    })
}
