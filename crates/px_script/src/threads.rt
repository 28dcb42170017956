// The lines of each thread, as they are read.
ghost use Rattle.std.specs.Prelude.{◌≡◌, [], length, filter, replicate, IsTrue, IfOk, OnOk};
ghost use Rattle.px_script.specs.Remainder.{has_a_line};
ghost use Rattle.px_script.specs.ThreadLine.{is_thread};
ghost use Rattle.px_script.specs.Threads.{lines_in, with_line, todos_from};

use crate::line::Line;
use crate::remainder::push_todo;
use crate::todo::Todo;
use px_value::{Name, NoMemory, Series};
use std::alloc::Global;
use std::array;

/// How many threads a script may have; they are numbered from 1.
pub(crate) const THREADS: usize = 8;

/// The lines that each thread has so far.
#[derive(Drop)]
pub(crate) struct ThreadLines {
    /// Those of thread 1 first.
    lines: [Series<Line>; THREADS],
}

impl ThreadLines {
    /// No line of any thread.
    pub(crate) fn new(alloc: Global) -> Self
        ensures { result.lines ≡ replicate 8 [] }
    {
        ThreadLines {
            lines: array::from_fn(|_| Series::from(Vec::new(alloc))),
        }
    }

    /// How many lines a thread has.
    pub(crate) fn count(&self, thread: u8) -> usize
        requires { IsTrue (is_thread thread) }
        ensures { result ≡ length (lines_in self.now.lines thread) }
    {
        self.lines[usize::from(thread) - 1].as_slice().len()
    }

    /// What the last line of a thread reports, if it reports a state.
    pub(crate) fn reported_last(&self, thread: u8) -> Option<&Name>
        requires { IsTrue (is_thread thread) }
    {
        match self.lines[usize::from(thread) - 1].as_slice() {
            [.., line] => line.reported(),
            [] => None,
        }
    }

    /// Appends a line to those of a thread.
    pub(crate) fn push(&mut self, thread: u8, line: Line) -> Result<(), NoMemory>
        requires { IsTrue (is_thread thread) }
        ensures { OnOk result (self.new.lines ≡ with_line self.old.lines thread line) }
    {
        self.lines[usize::from(thread) - 1].push(line)
    }

    /// The threads that have a line, in rising order.
    pub(crate) fn into_threads(self, alloc: Global) -> Result<Vec<Todo>, NoMemory>
        ensures { IfOk result (λ threads. threads.items ≡ filter has_a_line (todos_from 1 self.lines)) }
    {
        let mut threads = Vec::new(alloc);
        let mut thread = 0;
        for lines in self.lines {
            thread += 1;
            push_todo(&mut threads, Todo { thread, lines })?;
        }
        Ok(threads)
    }
}
