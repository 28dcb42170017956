// Pairs of a source and a watcher.
ghost use Rattle.std.specs.Prelude.{◌≡◌, ◌<◌, not, length, IfOk, if◌then◌else◌};
ghost use Rattle.px_listen.specs.Listening.{unwatched, with_dependent, pairs_of, dependents_of, is_dependent, AreSound};

use crate::dependents::Dependents;
use px_links::Links;
use px_value::NoMemory;
use std::alloc::Global;
use std::marker::Model;
use std::snapshot::Snapshot;

/// Sources and watchers, both by number, and which watcher depends on which source. Pairs are added and stay; no call
/// but `new` takes memory.
#[derive(Drop)]
pub struct Listeners {
    /// A list of cells for each source.
    links: Links,
    /// The watcher of each cell in use. Cells are used from 0 up.
    watcher_of: Vec<u32>,
    /// For each source a number above those of its watchers.
    bounds: Vec<u32>,
    watchers: Snapshot<u32>,
}

impl Model for Listeners {
    ghost use Rattle.px_listen.specs.Listening.{ListenData};

    ghost Value = { ListenData };

    ghost use Rattle.px_listen.specs.Keeping.{listen_data, IsKept};

    ghost view = { listen_data };

    ghost invariant = { IsKept };
}

impl Listeners {
    /// So many sources and watchers, and room for so many pairs, of which there are none. An error is want of memory.
    pub fn new(alloc: Global, sources: u32, watchers: u32, room: u32) -> Result<Listeners, NoMemory>
        ensures { IfOk result (λ made. made ≡ unwatched sources watchers room) }
    {
        Ok(Listeners {
            links: Links::new(alloc, room, sources)?,
            watcher_of: Vec::with_capacity(alloc, room as usize)?,
            bounds: vec![in alloc; 0; sources as usize]?,
            watchers: Snapshot::of(&watchers),
        })
    }

    /// Puts a watcher behind the others of a source. False exactly where it is one of them, and then nothing changes.
    pub fn add(&mut self, source: u32, watcher: u32) -> bool
        requires source { source < length self.old.dependents }
        requires watcher { watcher < self.old.watchers }
        requires room { pairs_of self.old < self.old.room }
        ensures answer { result ≡ not (is_dependent self.old source watcher) }
        ensures listeners { self.new
            ≡ (if is_dependent self.old source watcher then self.old else with_dependent self.old source watcher) }
    {
        if self.has(source, watcher) {
            return false;
        }
        let cell = self.watcher_of.len() as u32;
        self.watcher_of.push_reserved(watcher);
        self.links.push_back_absent(source, cell);
        let bound = &mut self.bounds[source as usize];
        *bound = (*bound).max(watcher + 1);
        true
    }

    // Whether the pair is there. What is above all watchers of the source isn't looked for among them.
    fn has(&self, source: u32, watcher: u32) -> bool
        requires { source < length self.now.dependents }
        ensures { result ≡ is_dependent self.now source watcher }
    {
        watcher < self.bounds[source as usize]
            && self.dependents(source).any(|other| watcher == other)
    }

    /// The watchers of a source, in the order in which they were added.
    pub fn dependents(&self, source: u32) -> Dependents<'_>
        requires { source < length self.now.dependents }
        ensures { result ≡ dependents_of self.now source }
    {
        Dependents {
            links: &self.links,
            watcher_of: &self.watcher_of,
            at: self.links.first(source),
        }
    }

    /// A law: each watcher is one of those, none stands twice at a source, and there are no more pairs than there is
    /// room for.
    pub fn each_once(&self)
        ensures { AreSound self.now }
    {
        // What every table keeps is known of its fields.
        let _ = &self.links;
    }
}
