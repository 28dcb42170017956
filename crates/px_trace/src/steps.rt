// The lines of micro steps: their numbers, their moves, and the end of a run of them.
ghost use Rattle.std.specs.Prelude.{◌≡◌, ◌++◌, OnOk, OnErr};
ghost use Rattle.px_sem.specs.Text.{outcome_text, failure_text, change_line, effect_line, step_text, quiet_text};
ghost use Rattle.px_trace.specs.Appending.{Keeps};

use crate::append::{keep_or_truncate, push_all};
use crate::effects::push_effect;
use itoa::Buffer;
use px_sem::{Effect, Move};
use px_value::{Failure, NoMemory, Outcome};
use std::alloc::Global;

/// Appends a micro step: its number, counted from 1, and its moves, each with its effect on a line of its own.
///
/// After `NoMemory` the text is as before.
pub fn push_step(
    _alloc: Global,
    number: u32,
    moves: &[Move],
    out: &mut Vec<u8>,
) -> Result<(), NoMemory>
    ensures ok { OnOk result (out.new.items ≡ out.old.items ++ step_text number moves.now) }
    ensures err { OnErr result (out.new.items ≡ out.old.items) }
{
    let before = out.len();
    let pushed = push_moves(number, moves, out);
    keep_or_truncate(pushed, before, out)
}

/// Appends the end of a run of so many micro steps.
///
/// After `NoMemory` the text is as before.
pub fn push_quiet(_alloc: Global, count: u32, out: &mut Vec<u8>) -> Result<(), NoMemory>
    ensures ok { OnOk result (out.new.items ≡ out.old.items ++ quiet_text count) }
    ensures err { OnErr result (out.new.items ≡ out.old.items) }
{
    push_all(out, &["quiet ", Buffer::new().format(count), "\n"])
}

fn push_moves(number: u32, moves: &[Move], out: &mut Vec<u8>) -> Result<(), NoMemory>
    ensures ok { OnOk result (out.new.items ≡ out.old.items ++ step_text number moves.now) }
    ensures err { OnErr result (Keeps out.old.items out.new.items) }
{
    push_all(out, &["step ", Buffer::new().format(number), "\n"])?;
    for step in moves {
        push_change(step, out)?;
        push_effect_line(&step.effect, out)?;
    }
    Ok(())
}

fn push_change(step: &Move, out: &mut Vec<u8>) -> Result<(), NoMemory>
    ensures ok { OnOk result (out.new.items ≡ out.old.items ++ change_line step.now) }
    ensures err { OnErr result (Keeps out.old.items out.new.items) }
{
    push_all(out, &["  ", step.node.as_str(), ": "])?;
    push_all(out, &[step.from.word(), " -> ", step.to.word()])?;
    push_outcome(step.outcome, out)?;
    push_failure(step.failure, out)?;
    push_all(out, &["\n"])
}

fn push_effect_line(effect: &Option<Effect>, out: &mut Vec<u8>) -> Result<(), NoMemory>
    ensures ok { OnOk result (out.new.items ≡ out.old.items ++ effect_line effect.now) }
    ensures err { OnErr result (Keeps out.old.items out.new.items) }
{
    if let Some(effect) = effect {
        push_all(out, &["    "])?;
        push_effect(effect, out)?;
        push_all(out, &["\n"])?;
    }
    Ok(())
}

fn push_outcome(outcome: Option<Outcome>, out: &mut Vec<u8>) -> Result<(), NoMemory>
    ensures ok { OnOk result (out.new.items ≡ out.old.items ++ outcome_text outcome) }
    ensures err { OnErr result (out.new.items ≡ out.old.items) }
{
    match outcome {
        None => Ok(()),
        Some(outcome) => push_all(out, &[" ", outcome.word()]),
    }
}

/// Appends a failure after a blank, or nothing.
pub(crate) fn push_failure(failure: Option<Failure>, out: &mut Vec<u8>) -> Result<(), NoMemory>
    ensures ok { OnOk result (out.new.items ≡ out.old.items ++ failure_text failure) }
    ensures err { OnErr result (out.new.items ≡ out.old.items) }
{
    match failure {
        None => Ok(()),
        Some(failure) => push_all(out, &[" ", failure.word()]),
    }
}
