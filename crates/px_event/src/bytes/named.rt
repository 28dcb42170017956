// The bytes of an entry with the name of its interface, which stands between the line and the event.
ghost use Rattle.std.specs.Prelude.{◌≡◌, ◌≢◌, IsTrue, IfOk, IsErrOf};
ghost use Rattle.std.specs.Option.{option_copied};
ghost use Rattle.px_event.specs.Appending.{Appends};
ghost use Rattle.px_event.specs.Bytes.{interface_bytes, named_bytes};
ghost use Rattle.px_event.specs.Fit.{is_interface, is_fit_entry, is_fit_named};
ghost use Rattle.px_event.specs.Reading.{Gives, Reads, interface_at, interface_behind, named_at, decoded_named};
ghost use Rattle.px_event.specs.declared.named.NamedEntry.{NamedEntry as AnyNamed};

use crate::bytes::entries::{ENTRY_LIMIT, event_of, push_event, push_source, source_of};
use crate::bytes::fields::{Reader, push_text};
use crate::entry::Entry;
use crate::fault::DecodeFault;
use crate::named::NamedEntry;
use px_value::{NAME_LIMIT, Name, NameFault, NoMemory, is_identifier};
use std::alloc::Global;

/// The most bytes of an entry with a name: those of the longest entry, and a name of 64 bytes behind its length in two.
pub const NAMED_LIMIT: usize = ENTRY_LIMIT + 2 + NAME_LIMIT;

/// The bytes of an entry with the name of its interface, or with none.
pub fn encode_named(alloc: Global, name: Option<&Name>, entry: &Entry) -> Result<Vec<u8>, NoMemory>
    requires name { IsTrue (is_interface (option_copied name)) }
    requires entry { IsTrue (is_fit_entry entry.now) }
    ensures { IfOk result (λ bytes. bytes.items ≡ named_bytes (option_copied name.entry) entry.now) }
{
    let mut out = Vec::with_capacity(alloc, NAMED_LIMIT)?;
    push_named(&mut out, name, entry)?;
    Ok(out)
}

/// Appends the bytes of an entry with the name of its interface. It succeeds where they have room. After an `Err` some
/// of them may stand behind what was there.
pub fn push_named(out: &mut Vec<u8>, name: Option<&Name>, entry: &Entry) -> Result<(), NoMemory>
    requires name { IsTrue (is_interface (option_copied name)) }
    requires entry { IsTrue (is_fit_entry entry.now) }
    ensures { Appends (named_bytes (option_copied name.entry) entry.now) out.old out.new result }
{
    push_source(out, entry)?;
    push_interface(out, name)?;
    push_event(out, &entry.event)
}

/// Appends a name as a text, which is empty where there is none.
fn push_interface(out: &mut Vec<u8>, name: Option<&Name>) -> Result<(), NoMemory>
    requires { IsTrue (is_interface (option_copied name)) }
    ensures { Appends (interface_bytes (option_copied name.entry)) out.old out.new result }
{
    match name {
        Some(name) => push_text(out, name.as_str()),
        None => push_text(out, ""),
    }
}

/// The entry, and the name of its interface, whose bytes these are.
///
/// `Bad` comes exactly where they are those of no entry with a name or without one.
pub fn decode_named(alloc: Global, bytes: &[u8]) -> Result<NamedEntry, DecodeFault>
    ensures named { IfOk result (λ named. IsTrue (is_fit_named named)
        × (bytes.now ≡ named_bytes named.name named.entry)) }
    ensures bad { IsErrOf result DecodeFault.Bad → (named : AnyNamed) → IsTrue (is_fit_named named)
        → bytes.now ≢ named_bytes named.name named.entry }
{
    read_whole(alloc, bytes)
}

/// The entry and its name that are read of all the bytes.
#[tactic(auto, unfolding(crate::specs::Reading::decoded_named))]
fn read_whole(alloc: Global, bytes: &[u8]) -> Result<NamedEntry, DecodeFault>
    ensures { Gives (λ named. named) (decoded_named bytes.now) result }
{
    let mut reader = Reader::new(bytes);
    let named = named_of(alloc, &mut reader)?;
    if !reader.is_at_end() {
        return Err(DecodeFault::Bad);
    }
    Ok(named)
}

#[tactic(auto, unfolding(crate::specs::Reading::named_at))]
fn named_of(alloc: Global, reader: &mut Reader<'_>) -> Result<NamedEntry, DecodeFault>
    ensures { Reads (λ named. named) (named_at reader.old) result reader.new }
{
    let (thread, line) = source_of(reader)?;
    let name = interface_of(alloc, reader)?;
    let event = event_of(alloc, reader)?;
    Ok(NamedEntry {
        name,
        entry: Entry {
            thread,
            line,
            event,
        },
    })
}

/// The next name of an interface, or none where its text is empty.
#[tactic(auto, unfolding(crate::specs::Reading::interface_at))]
fn interface_of(alloc: Global, reader: &mut Reader<'_>) -> Result<Option<Name>, DecodeFault>
    ensures { Reads (λ name. name) (interface_at reader.old) result reader.new }
{
    let text = reader.text()?;
    if text.is_empty() {
        return Ok(None);
    }
    if !is_identifier(text.as_bytes()) {
        return Err(DecodeFault::Bad);
    }
    match Name::new(alloc, text) {
        Ok(name) => Ok(Some(name)),
        Err(NameFault::NotAName) => Err(DecodeFault::Bad),
        Err(NameFault::NoMemory) => Err(DecodeFault::NoMemory),
    }
}
