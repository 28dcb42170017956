// Lines that wait.
ghost use Rattle.std.specs.Prelude.{◌≡◌, IfOk};
ghost use Rattle.px_script.specs.Kinds.{plan_of};
ghost use Rattle.px_script.specs.WaitLine.{state_of, state_wait, events_wait, wait_line};

use crate::fault::FaultKind;
use crate::kinds::Kinds;
use crate::node_line::node_at;
use crate::parsed_line::ParsedLine;
use crate::text::{is_word, split_word};
use crate::thread_line::are_digits;
use px_event::Cond;
use px_value::{NoMemory, NodeState};
use std::alloc::Global;

/// The most digits that a number of events is written with.
const DIGIT_LIMIT: usize = 6;

const STATES: [NodeState; 7] = [
    NodeState::Inactive,
    NodeState::Waiting,
    NodeState::Executing,
    NodeState::Finishing,
    NodeState::IterationEnded,
    NodeState::Failing,
    NodeState::Finished,
];

/// What a line `wait state PATH STATE` or `wait events N` says by the text behind its word; None exactly where that hasn't
/// the shape.
pub(crate) fn wait_line(
    alloc: Global,
    kinds: &Kinds,
    text: &str,
) -> Result<Option<ParsedLine>, NoMemory>
    ensures { IfOk result (λ says. says ≡ wait_line (plan_of kinds.now) text.now) }
{
    let (word, behind) = split_word(text);
    if is_word(word, "state") {
        state_wait(alloc, kinds, behind)
    } else if is_word(word, "events") {
        Ok(events_wait(behind))
    } else {
        Ok(None)
    }
}

/// What a wait for `PATH STATE` says.
fn state_wait(alloc: Global, kinds: &Kinds, text: &str) -> Result<Option<ParsedLine>, NoMemory>
    ensures { IfOk result (λ says. says ≡ state_wait (plan_of kinds.now) text.now) }
{
    let (path, word) = split_word(text);
    let Some(state) = state_of(word) else {
        return Ok(None);
    };
    Ok(Some(match node_at(alloc, kinds, path)? {
        Some((node, _)) => ParsedLine::Waits(Cond::State { node, state }),
        None => ParsedLine::Faulty(FaultKind::BadNode),
    }))
}

/// What a wait for `N` events says.
fn events_wait(text: &str) -> Option<ParsedLine>
    ensures { result ≡ events_wait text.now }
{
    if !are_digits(text.as_bytes()) || text.len() > DIGIT_LIMIT {
        return None;
    }
    let least = text.parse::<u32>().ok()?;
    Some(ParsedLine::Waits(Cond::Events { least }))
}

/// The state that a word names.
#[tactic(auto, unfolding(crate::specs::WaitLine::state_of))]
fn state_of(word: &str) -> Option<NodeState>
    ensures { result ≡ state_of word.now }
{
    let mut states = STATES.as_slice();
    while let [state, rest @ ..] = states {
        if is_word(word, state.word()) {
            return Some(*state);
        }
        states = rest;
    }
    None
}
