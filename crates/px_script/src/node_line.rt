// Lines that tell of a node.
ghost use Rattle.std.specs.Prelude.{◌≡◌, Some, None, IfOk, if◌then◌else◌};
ghost use Rattle.std.specs.Option.{option_map};
ghost use Rattle.px_core.specs.Plan.{is_same};
ghost use Rattle.px_script.specs.Kinds.{plan_of};
ghost use Rattle.px_script.specs.NodeLine.{kind_at, handle_of, handle_line, return_line, abort_line, ack_line};

use crate::fault::FaultKind;
use crate::kinds::Kinds;
use crate::parsed_line::ParsedLine;
use crate::text::{is_word, split_word};
use crate::value::value_of;
use px_core::Kind;
use px_event::Event;
use px_value::{Handle, NoMemory, Path, PathFault};
use std::alloc::{AllocError, Global};

const HANDLES: [Handle; 6] = [
    Handle::CommandSentToSystem,
    Handle::CommandAccepted,
    Handle::CommandRcvdBySystem,
    Handle::CommandFailed,
    Handle::CommandDenied,
    Handle::CommandSuccess,
];

/// What a line `handle PATH HANDLE` says by the text behind its word; None exactly where that hasn't the shape.
pub(crate) fn handle_line(
    alloc: Global,
    kinds: &Kinds,
    text: &str,
) -> Result<Option<ParsedLine>, NoMemory>
    ensures { IfOk result (λ says. says ≡ handle_line (plan_of kinds.now) text.now) }
{
    let (path, word) = split_word(text);
    let Some(handle) = handle_of(word) else {
        return Ok(None);
    };
    let Some((node, Kind::Command)) = node_at(alloc, kinds, path)? else {
        return Ok(Some(ParsedLine::Faulty(FaultKind::BadNode)));
    };
    Ok(Some(ParsedLine::Posts(Event::Handle { node, handle })))
}

/// What a line `return PATH VALUE` says by the text behind its word; None exactly where that hasn't the shape.
pub(crate) fn return_line(
    alloc: Global,
    kinds: &Kinds,
    text: &str,
) -> Result<Option<ParsedLine>, NoMemory>
    ensures { IfOk result (λ says. says ≡ return_line (plan_of kinds.now) text.now) }
{
    let (path, spelling) = split_word(text);
    if spelling.is_empty() {
        return Ok(None);
    }
    let Some((node, Kind::Command)) = node_at(alloc, kinds, path)? else {
        return Ok(Some(ParsedLine::Faulty(FaultKind::BadNode)));
    };
    Ok(Some(match value_of(alloc, spelling)? {
        Some(value) => ParsedLine::Posts(Event::Return { node, value }),
        None => ParsedLine::Faulty(FaultKind::BadValue),
    }))
}

/// What a line `abort PATH` says by the text behind its word; None exactly where that hasn't the shape.
pub(crate) fn abort_line(
    alloc: Global,
    kinds: &Kinds,
    text: &str,
) -> Result<Option<ParsedLine>, NoMemory>
    ensures { IfOk result (λ says. says ≡ abort_line (plan_of kinds.now) text.now) }
{
    let (path, behind) = split_word(text);
    if text.is_empty() || !behind.is_empty() {
        return Ok(None);
    }
    let Some((node, Kind::Command)) = node_at(alloc, kinds, path)? else {
        return Ok(Some(ParsedLine::Faulty(FaultKind::BadNode)));
    };
    Ok(Some(ParsedLine::Posts(Event::AbortDone { node })))
}

/// What a line `ack PATH` says by the text behind its word; None exactly where that hasn't the shape.
pub(crate) fn ack_line(
    alloc: Global,
    kinds: &Kinds,
    text: &str,
) -> Result<Option<ParsedLine>, NoMemory>
    ensures { IfOk result (λ says. says ≡ ack_line (plan_of kinds.now) text.now) }
{
    let (path, behind) = split_word(text);
    if text.is_empty() || !behind.is_empty() {
        return Ok(None);
    }
    let Some((node, Kind::Update)) = node_at(alloc, kinds, path)? else {
        return Ok(Some(ParsedLine::Faulty(FaultKind::BadNode)));
    };
    Ok(Some(ParsedLine::Posts(Event::Acknowledged { node })))
}

/// The handle that a word names.
#[tactic(auto, unfolding(crate::specs::NodeLine::handle_of))]
fn handle_of(word: &str) -> Option<Handle>
    ensures { result ≡ handle_of word.now }
{
    let mut handles = HANDLES.as_slice();
    while let [handle, rest @ ..] = handles {
        if is_word(word, handle.word()) {
            return Some(*handle);
        }
        handles = rest;
    }
    None
}

/// The node at a path, with its kind; None exactly where the plan has none there.
pub(crate) fn node_at(
    alloc: Global,
    kinds: &Kinds,
    text: &str,
) -> Result<Option<(Path, Kind)>, NoMemory>
    ensures { IfOk result (λ node. node ≡ option_map (λ kind. (text.now, kind)) (kind_at (plan_of kinds.now) text.now)) }
{
    let path = match Path::new(alloc, text) {
        Ok(path) => path,
        Err(PathFault::NotAPath) => return Ok(None),
        Err(PathFault::NoMemory) => return Err(AllocError),
    };
    match kinds.get(&path) {
        Some(kind) => Ok(Some((path, kind))),
        None => Ok(None),
    }
}
