// A text of which isn't known yet whether it will be printed, kept while it is short.
ghost use Rattle.std.specs.Prelude.{◌≡◌, [], None, Some, take, length};
ghost use Rattle.std.specs.Option.{option_map, is_some, ForSome};
ghost use Rattle.px_output.specs.Drafts.{Keeps};
ghost use Rattle.px_sem.specs.Text.{start_text, heading_text, step_text, quiet_text};

use px_event::Entry;
use px_sem::Move;
use px_trace::{push_heading, push_quiet, push_start, push_step};
use std::alloc::Global;
use std::marker::Model;

/// How many bytes a draft has at most.
const LIMIT: usize = 8 * 1024 * 1024;

/// The text of a trace so far. It is kept while it has at most 8 MiB and memory holds it; else it is given up, and its
/// memory is free again. So no call of it can fail. To contracts it is what was gathered since it was new, or None where it
/// was given up.
#[derive(Drop)]
pub struct Draft {
    alloc: Global,
    text: Option<Vec<u8>>,
}

impl Model for Draft {
    ghost use Rattle.std.specs.Prelude.{ℕ, List, Option};
    ghost use Rattle.std.specs.Option.{option_map};

    ghost Value = { Option (List ℕ) };

    ghost view = { λ draft. option_map (λ text. text.items) draft.text };
}

impl Draft {
    /// A draft with nothing in it.
    pub fn new(alloc: Global) -> Draft
        ensures { result ≡ Some [] }
    {
        Draft {
            alloc,
            text: Some(Vec::new(alloc)),
        }
    }

    /// The text; None where it was given up.
    pub fn into_text(self) -> Option<Vec<u8>>
        ensures { option_map (λ text. text.items) result ≡ self }
    {
        self.text
    }

    /// Whether the text is kept still.
    pub fn is_kept(&self) -> bool
        ensures { result ≡ is_some self.now }
    {
        self.text.is_some()
    }

    /// How much there is of it, to take back by what comes behind.
    pub fn len(&self) -> usize
        ensures { ForSome self.now (λ text. result ≡ length text) }
    {
        self.text.as_ref().map_or(0, |text| text.len())
    }

    /// Takes back all but so many bytes.
    pub fn truncate(&mut self, len: usize)
        ensures { self.new ≡ option_map (take len) self.old }
    {
        if let Some(text) = &mut self.text {
            text.truncate(len);
        }
    }

    /// Gathers the heading of the start.
    pub fn start(&mut self)
        ensures { Keeps self.old self.new start_text }
    {
        if let Some(mut text) = self.text.take() {
            if push_start(self.alloc, &mut text).is_ok() {
                self.keep(text);
            }
        }
    }

    /// Gathers the heading of an event at its position in the history, from 1.
    pub fn heading(&mut self, position: u32, entry: &Entry)
        ensures { Keeps self.old self.new (heading_text position entry.now) }
    {
        if let Some(mut text) = self.text.take() {
            if push_heading(self.alloc, position, entry, &mut text).is_ok() {
                self.keep(text);
            }
        }
    }

    /// Gathers a micro step: its number, from 1, and its moves.
    pub fn step(&mut self, number: u32, moves: &[Move])
        ensures { Keeps self.old self.new (step_text number moves.now) }
    {
        if let Some(mut text) = self.text.take() {
            if push_step(self.alloc, number, moves, &mut text).is_ok() {
                self.keep(text);
            }
        }
    }

    /// Gathers how many micro steps led to a quiet world.
    pub fn quiet(&mut self, count: u32)
        ensures { Keeps self.old self.new (quiet_text count) }
    {
        if let Some(mut text) = self.text.take() {
            if push_quiet(self.alloc, count, &mut text).is_ok() {
                self.keep(text);
            }
        }
    }

    // Takes a text back that was pushed to, unless it is too long.
    fn keep(&mut self, text: Vec<u8>)
        requires { self.old ≡ None }
        ensures { Keeps (Some text.items) self.new [] }
    {
        if text.len() <= LIMIT {
            self.text = Some(text);
        }
    }
}
