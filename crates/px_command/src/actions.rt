// What each node has under way.
ghost use Rattle.std.specs.Prelude.{◌≡◌, ◌≢◌, ℕ, ◌+◌, ◌<◌, ◌≤◌, length, replicate, slice_get, Some, All, AllPairs, Contains, IfOk, IsSome, IsNone, OnOk};
ghost use Rattle.px_cells.specs.Marked.{unmarked, with_mark, written, rolled_back, committed, TellsNews, IsAllSeen};
ghost use Rattle.px_cells.specs.News.{with_number, with_numbers};
ghost use Rattle.px_flat.specs.declared.act.Act.TheVariants as acts;
ghost use Rattle.px_flat.specs.Flat.{plan_of};

use px_cells::Marked;
use px_flat::{Act, Flat};
use px_value::NoMemory;
use std::alloc::Global;
use std::marker::Model;

/// What each node has under way, by the number of the node. A node's handle and acknowledgement are cells.
#[derive(Drop)]
pub struct Actions {
    acts: Marked<Act>,
}

impl Model for Actions {
    ghost use Rattle.px_command.specs.Actions.{ActionsData};

    ghost Value = { ActionsData };

    ghost view = { λ actions. actions.acts };
}

impl Actions {
    /// No node has anything under way, and no mark stands; all is seen.
    pub fn new(alloc: Global, flat: &Flat) -> Result<Actions, NoMemory>
        ensures contents { IfOk result (λ actions. actions.contents
            ≡ unmarked (replicate (length (plan_of flat.now)) acts.Idle)) }
        ensures news { IfOk result (λ actions. IsAllSeen actions actions.contents.values) }
    {
        let nodes = flat.nodes();
        let mut acts = Vec::with_capacity(alloc, nodes as usize)?;
        for _ in 0..nodes {
            acts.push(Act::Idle)?;
        }
        Ok(Actions {
            acts: Marked::new(alloc, acts)?,
        })
    }

    /// What a node has under way.
    pub fn of(&self, node: u32) -> &Act
        requires { node < length self.now.contents.values }
        ensures { slice_get self.now.contents.values node ≡ Some result.now }
    {
        self.acts.get(node)
    }

    /// Makes room for so many calls of `put`.
    pub fn reserve(&mut self, alloc: Global, more: u32) -> Result<(), NoMemory>
        ensures contents { self.new.contents ≡ self.old.contents }
        ensures news { TellsNews self.old self.new self.old.news }
        ensures ok { OnOk result (more ≤ self.new.room) }
        ensures room { self.old.room ≤ self.new.room }
    {
        self.acts.reserve(alloc, more)
    }

    /// Sets what a node has under way where there is room, and takes no memory.
    pub fn put(&mut self, node: u32, act: Act)
        requires within { node < length self.old.contents.values }
        requires room { 0 < self.old.room }
        ensures contents { self.new.contents ≡ written self.old.contents node act }
        ensures news { TellsNews self.old self.new (with_number self.old.news node) }
        ensures room { self.old.room ≤ self.new.room + 1 }
    {
        self.acts.put(node, act);
    }

    /// The nodes of which what is under way was set or went back since it was last seen, each once, in the order of their
    /// first news.
    pub fn news(&self) -> &[u32]
        ensures value { result.now ≡ self.now.news }
        ensures once { AllPairs (λ a b. a ≢ b) result.now }
        ensures within { All (λ node. node < length self.now.contents.values) result.now }
        // What the other nodes have under way is as it was seen.
        ensures others { (node : ℕ) → (Contains result.now node → ⊥)
            → slice_get self.now.contents.values node ≡ slice_get self.now.seen node }
    {
        self.acts.news()
    }

    /// Takes the news: what is under way now is what is seen, and none of it is news.
    pub fn see(&mut self)
        ensures contents { self.new.contents ≡ self.old.contents }
        ensures news { IsAllSeen self.new self.old.contents.values }
        ensures room { self.old.room ≤ self.new.room }
    {
        self.acts.see();
    }

    /// Marks what is under way as what to go back to.
    pub fn mark(&mut self)
        requires { IsNone self.old.contents.marked }
        ensures contents { self.new.contents ≡ with_mark self.old.contents }
        ensures news { TellsNews self.old self.new self.old.news }
        ensures room { self.old.room ≤ self.new.room }
    {
        self.acts.mark();
    }

    /// Goes back to what was under way at the mark, and ends it. Each node of which that was set since the mark is news.
    pub fn rollback(&mut self)
        requires { IsSome self.old.contents.marked }
        ensures contents { self.new.contents ≡ rolled_back self.old.contents }
        ensures news { TellsNews self.old self.new
            (with_numbers self.old.news self.old.contents.changed) }
        ensures room { self.old.room ≤ self.new.room }
    {
        self.acts.rollback();
    }

    /// Keeps what is under way now, and ends the mark.
    pub fn commit(&mut self)
        requires { IsSome self.old.contents.marked }
        ensures contents { self.new.contents ≡ committed self.old.contents }
        ensures news { TellsNews self.old self.new self.old.news }
        ensures room { self.old.room ≤ self.new.room }
    {
        self.acts.commit();
    }

    /// No node has anything under way any more. What was last seen stays. It takes no memory.
    pub fn clear(&mut self)
        requires { IsNone self.old.contents.marked }
        ensures values { self.new.contents.values ≡ replicate (length self.old.contents.values) acts.Idle }
        ensures unmarked { IsNone self.new.contents.marked }
        ensures seen { self.new.seen ≡ self.old.seen }
        ensures room { self.old.room ≤ self.new.room }
    {
        for node in 0..self.acts.count() {
            self.acts.overwrite(node, Act::Idle);
        }
    }
}
