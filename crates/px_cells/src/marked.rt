// Things by number, which go back to a mark.
ghost use Rattle.std.specs.Prelude.{◌≡◌, ◌≢◌, ℕ, ◌+◌, ◌<◌, ◌≤◌, ◌^◌, length, slice_get, Some, None, All, AllPairs};
ghost use Rattle.std.specs.Prelude.{Contains, IfOk, IfSome, IsSome, IsNone, OnOk, OnErr};
ghost use Rattle.px_cells.specs.Marked.{unmarked, with_mark, written, rolled_back, committed, TellsNews, IsAllSeen};
ghost use Rattle.px_cells.specs.Marks.{at_mark, AreNoted, NoneKept};
ghost use Rattle.px_cells.specs.News.{with_number, with_numbers};

use crate::news::News;
use px_value::NoMemory;
use std::alloc::Global;
use std::marker::Model;
use std::mem;
use std::snapshot::Snapshot;

/// Values by number from 0. Behind a mark the first write of each keeps its old value, so that going back costs what
/// was written and not what there is. What was written or went back since the values were last seen is news.
#[derive(Drop)]
pub struct Marked<T> {
    values: Vec<T>,
    /// The value at the mark of each that was written since.
    olds: Vec<Option<T>>,
    /// The numbers at which an old value is kept, in the order of their first writes.
    changed: Vec<u32>,
    is_marked: bool,
    seen: Snapshot<Vec<T>>,
    news: News,
}

impl<T> Model for Marked<T> {
    ghost use Rattle.px_cells.specs.Marked.{MarkedData, marked_code};

    ghost Value = { MarkedData T };

    ghost coded = { marked_code T.code };

    ghost use Rattle.px_cells.specs.Keeping.{marked_data, IsKept};

    ghost view = { marked_data };

    ghost invariant = { IsKept };
}

// Puts the old values back that are kept at these numbers.
fn put_back<T: Drop>(values: &mut [T], olds: &mut [Option<T>], changed: &[u32])
    requires sized { length olds.old ≡ length values.old }
    requires noted { AreNoted olds.old changed.now }
    ensures values { values.new ≡ at_mark olds.old values.old }
    ensures olds { NoneKept olds.new }
{
    for at in changed {
        if let Some(old) = olds[*at as usize].take() {
            values[*at as usize] = old;
        }
    }
}

// Drops the old values that are kept at these numbers.
fn forget<T: Drop>(olds: &mut [Option<T>], changed: &[u32])
    requires noted { AreNoted olds.old changed.now }
    ensures olds { NoneKept olds.new }
{
    for at in changed {
        olds[*at as usize] = None;
    }
}

impl<T: Drop> Marked<T> {
    /// These values, and no mark; all are seen.
    pub fn new(alloc: Global, values: Vec<T>) -> Result<Self, NoMemory>
        requires { length values.items < 2 ^ 32 }
        ensures contents { IfOk result (λ made. made.contents ≡ unmarked values.items) }
        ensures news { IfOk result (λ made. IsAllSeen made values.items) }
    {
        let news = News::new(alloc, values.len())?;
        let mut olds = Vec::with_capacity(alloc, values.len())?;
        for _ in 0..values.len() {
            olds.push(None)?;
        }
        Ok(Marked {
            seen: Snapshot::of(&values),
            news,
            values,
            olds,
            changed: Vec::new(alloc),
            is_marked: false,
        })
    }

    /// Writes a value.
    pub fn set(&mut self, alloc: Global, at: u32, value: T) -> Result<(), NoMemory>
        requires { at < length self.old.contents.values }
        ensures ok { OnOk result (self.new.contents ≡ written self.old.contents at value) }
        ensures err { OnErr result (self.new.contents ≡ self.old.contents) }
        ensures told { OnOk result (TellsNews self.old self.new (with_number self.old.news at)) }
        ensures not_told { OnErr result (TellsNews self.old self.new self.old.news) }
        ensures room { self.old.room ≤ self.new.room + 1 }
    {
        self.reserve(alloc, 1)?;
        self.put(at, value);
        Ok(())
    }

    /// Makes room for so many calls of `put`.
    pub fn reserve(&mut self, _alloc: Global, more: u32) -> Result<(), NoMemory>
        ensures contents { self.new.contents ≡ self.old.contents }
        ensures news { TellsNews self.old self.new self.old.news }
        ensures ok { OnOk result (more ≤ self.new.room) }
        ensures room { self.old.room ≤ self.new.room }
    {
        self.changed.reserve(more as usize)
    }

    /// Writes a value where there is room, and takes no memory.
    pub fn put(&mut self, at: u32, value: T)
        requires within { at < length self.old.contents.values }
        requires room { 0 < self.old.room }
        ensures contents { self.new.contents ≡ written self.old.contents at value }
        ensures news { TellsNews self.old self.new (with_number self.old.news at) }
        ensures room { self.old.room ≤ self.new.room + 1 }
    {
        self.news.note(at);
        let old = mem::replace(&mut self.values[at as usize], value);
        if self.is_marked && self.olds[at as usize].is_none() {
            self.olds[at as usize] = Some(old);
            // There is room.
            let _ = self.changed.push(at);
        }
    }

    /// Writes a value where no mark stands, and takes no memory.
    pub fn overwrite(&mut self, at: u32, value: T)
        requires within { at < length self.old.contents.values }
        requires unmarked { IsNone self.old.contents.marked }
        ensures contents { self.new.contents ≡ written self.old.contents at value }
        ensures news { TellsNews self.old self.new (with_number self.old.news at) }
        ensures room { self.old.room ≤ self.new.room }
    {
        self.news.note(at);
        self.values[at as usize] = value;
    }

    /// How many values there are.
    pub fn count(&self) -> u32
        ensures { result ≡ length self.now.contents.values }
    {
        self.values.len() as u32
    }

    /// The value of a number.
    pub fn get(&self, at: u32) -> &T
        requires { at < length self.now.contents.values }
        ensures { slice_get self.now.contents.values at ≡ Some result.now }
    {
        &self.values[at as usize]
    }

    /// Marks the values as those to go back to.
    pub fn mark(&mut self)
        requires { IsNone self.old.contents.marked }
        ensures contents { self.new.contents ≡ with_mark self.old.contents }
        ensures news { TellsNews self.old self.new self.old.news }
        ensures room { self.old.room ≤ self.new.room }
    {
        self.is_marked = true;
    }

    /// Goes back to the values at the mark, and ends it. Each that was written since the mark is news.
    pub fn rollback(&mut self)
        requires { IsSome self.old.contents.marked }
        ensures contents { self.new.contents ≡ rolled_back self.old.contents }
        ensures news { TellsNews self.old self.new
            (with_numbers self.old.news self.old.contents.changed) }
        ensures room { self.old.room ≤ self.new.room }
    {
        self.news.note_all(&self.changed);
        put_back(&mut self.values, &mut self.olds, &self.changed);
        self.changed.clear();
        self.is_marked = false;
    }

    /// Keeps the present values, and ends the mark.
    pub fn commit(&mut self)
        requires { IsSome self.old.contents.marked }
        ensures contents { self.new.contents ≡ committed self.old.contents }
        ensures news { TellsNews self.old self.new self.old.news }
        ensures room { self.old.room ≤ self.new.room }
    {
        forget(&mut self.olds, &self.changed);
        self.changed.clear();
        self.is_marked = false;
    }

    /// The numbers of the values that were written since the mark, each once, in the order of their first writes.
    pub fn changed(&self) -> &[u32]
        requires { IsSome self.now.contents.marked }
        ensures value { result.now ≡ self.now.contents.changed }
        ensures once { AllPairs (λ a b. a ≢ b) result.now }
        ensures within { All (λ at. at < length self.now.contents.values) result.now }
        // What is not among them has the value of the mark.
        ensures others { IfSome self.now.contents.marked (λ values. (at : ℕ) → (Contains result.now at → ⊥)
            → slice_get self.now.contents.values at ≡ slice_get values at) }
    {
        &self.changed
    }

    /// The numbers of the values that were written or went back since they were last seen, each once, in the order of
    /// their first news.
    pub fn news(&self) -> &[u32]
        ensures value { result.now ≡ self.now.news }
        ensures once { AllPairs (λ a b. a ≢ b) result.now }
        ensures within { All (λ at. at < length self.now.contents.values) result.now }
        // What is not among them is as it was seen.
        ensures others { (at : ℕ) → (Contains result.now at → ⊥)
            → slice_get self.now.contents.values at ≡ slice_get self.now.seen at }
    {
        self.news.numbers()
    }

    /// Takes the news: the present values are those that are seen, and none of them is news.
    pub fn see(&mut self)
        ensures contents { self.new.contents ≡ self.old.contents }
        ensures news { IsAllSeen self.new self.old.contents.values }
        ensures room { self.old.room ≤ self.new.room }
    {
        self.news.clear();
        self.seen = Snapshot::of(&self.values);
    }
}
