// What is left of a script after a history.
ghost use Rattle.std.specs.Prelude.{◌≡◌, ℕ, [], ◌∷◌, ◌++◌, filter, slice_index, IfOk, OnOk};
ghost use Rattle.px_script.specs.Fit.{IsFitScript};
ghost use Rattle.px_script.specs.Remainder.{last_line, lines_above, has_a_line, rest};

use crate::line::Line;
use crate::script::Script;
use crate::todo::Todo;
use px_event::Entry;
use px_value::{NoMemory, Series};
use std::alloc::Global;

/// What is left of a script after a history: of each thread the lines with numbers above the greatest that the history
/// has of the thread. A thread with no line left is dropped; the names stay.
pub fn rest(alloc: Global, script: Script, history: &[Entry]) -> Result<Script, NoMemory>
    ensures ok { IfOk result (λ left. left.threads ≡ rest script.threads history.now) }
    ensures names { IfOk result (λ left. left.names ≡ script.names) }
    ensures fit { IsFitScript script → IfOk result (λ left. IsFitScript left) }
{
    let Script { threads, names } = script;
    let threads = threads_left(alloc, threads, history)?;
    Ok(Script {
        threads: threads.into(),
        names,
    })
}

/// What is left of the threads.
fn threads_left(
    alloc: Global,
    threads: Series<Todo>,
    history: &[Entry],
) -> Result<Vec<Todo>, NoMemory>
    ensures { IfOk result (λ left. left.items ≡ rest threads history.now) }
{
    let last = last_lines(history);
    let mut left = Vec::new(alloc);
    for Todo { thread, lines } in threads.into_vec() {
        let lines = lines_above(last[usize::from(thread)], lines);
        push_todo(&mut left, Todo { thread, lines })?;
    }
    Ok(left)
}

/// The greatest line of each thread in the history; 0 for a thread that has none.
fn last_lines(history: &[Entry]) -> [u32; 256]
    ensures { (thread : ℕ) → slice_index result thread ≡ last_line thread history.now }
{
    let mut last = [0; 256];
    for entry in history {
        let thread = usize::from(entry.thread);
        last[thread] = last[thread].max(entry.line);
    }
    last
}

/// The lines with numbers above this one, in the vector that held all of them.
fn lines_above(number: u32, lines: Series<Line>) -> Series<Line>
    ensures { result ≡ lines_above number lines }
{
    let mut lines = lines.into_vec();
    lines.retain(|line| line.number > number);
    lines.into()
}

/// Appends a thread, where it has a line.
pub(crate) fn push_todo(threads: &mut Vec<Todo>, todo: Todo) -> Result<(), NoMemory>
    ensures { OnOk result (threads.new.items ≡ threads.old.items ++ filter has_a_line (todo ∷ [])) }
{
    if !todo.lines.as_slice().is_empty() {
        threads.push(todo)?;
    }
    Ok(())
}
