// The posts of a script in the order of its lines.
ghost use Rattle.std.specs.Prelude.{◌≡◌, ◌++◌, IsTrue, IfOk, OnOk};
ghost use Rattle.std.specs.List.{list_all};
ghost use Rattle.px_event.specs.Fit.{is_fit_entry};
ghost use Rattle.px_script.specs.Fit.{IsFitScript};
ghost use Rattle.px_script.specs.Order.{entry_of, thread_entries, all_entries, InFileOrder};

use crate::line::{Line, What};
use crate::script::Script;
use crate::todo::Todo;
use px_event::Entry;
use px_value::{NoMemory, Series};
use std::alloc::Global;

impl Script {
    /// The posts of all threads by rising line number; wait lines are passed over.
    pub fn into_entries(self, alloc: Global) -> Result<Vec<Entry>, NoMemory>
        requires { IsFitScript self }
        ensures order { IfOk result (λ entries. InFileOrder self.threads entries.items) }
        ensures fit { IfOk result (λ entries. IsTrue (list_all is_fit_entry entries.items)) }
    {
        let mut entries = all_entries(alloc, self.threads)?;
        entries.sort_by_key(|entry| entry.line)?;
        Ok(entries)
    }
}

/// What all threads post, one thread after another.
fn all_entries(alloc: Global, threads: Series<Todo>) -> Result<Vec<Entry>, NoMemory>
    ensures { IfOk result (λ entries. entries.items ≡ all_entries threads) }
{
    let mut entries = Vec::new(alloc);
    for todo in threads.into_vec() {
        push_entries(&mut entries, todo)?;
    }
    Ok(entries)
}

/// Appends what a thread posts.
fn push_entries(entries: &mut Vec<Entry>, todo: Todo) -> Result<(), NoMemory>
    ensures { OnOk result (entries.new.items ≡ entries.old.items ++ thread_entries todo) }
{
    let Todo { thread, lines } = todo;
    let lines = lines.into_vec().into_iter();
    entries.extend(lines.filter_map(|line| entry_of(thread, line)))
}

/// What a line posts on its thread.
fn entry_of(thread: u8, line: Line) -> Option<Entry>
    ensures { result ≡ entry_of thread line }
{
    let Line { number, what } = line;
    match what {
        What::Post(event) => Some(Entry {
            thread,
            line: number,
            event,
        }),
        What::Wait(_) => None,
    }
}
