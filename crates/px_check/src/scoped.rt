// Names with what they mean at a place of a plan.
ghost use Rattle.std.specs.Prelude.{◌≡◌, ◌-◌, ℕ, List, [], ◌∷◌, ◌++◌, drop, length, Option, IsSome, OnOk, OnErr};
ghost use Rattle.std.specs.Prelude.{if◌then◌else◌};
ghost use Rattle.std.specs.Str.{bytes_eq};
ghost use Rattle.indexmap.specs.IndexMap.{get};

use crate::room::push_in_room;
use indexmap::IndexMap;
use px_value::{Name, NoMemory};
use std::alloc::Global;
use std::marker::Model;

/// A name with a meaning, and the place of the entry of that name that it shadows.
#[derive(Drop)]
pub struct Shadowing<T> {
    name: Name,
    meaning: T,
    shadowed: Option<usize>,
}

/// Names with their meanings at a place of a plan. Of several of one name the nearest counts.
#[derive(Drop)]
pub struct Scoped<T> {
    /// From the farthest to the nearest.
    entries: Vec<Shadowing<T>>,
    /// The place of the nearest entry of each name.
    index: IndexMap<Name, usize>,
}

impl<T> Model for Scoped<T> {
    ghost use Rattle.std.specs.Prelude.{ℕ, List, reverse};
    ghost use Rattle.px_check.specs.Scoped.{meanings, IsLinked, IsIndex};

    ghost Value = { List (List ℕ × T) };

    ghost view = { λ scoped. meanings (reverse scoped.entries.items) };

    ghost invariant = { λ scoped.
        IsLinked (reverse scoped.entries.items) × IsIndex scoped.index (reverse scoped.entries.items) };
}

// Gives a name that is there the place that it had before, or takes it out where it had none.
fn restore(index: &mut IndexMap<Name, usize>, name: Name, shadowed: Option<usize>)
    requires { IsSome (get bytes_eq index.old name) }
    ensures { (other : List ℕ) → get bytes_eq index.new other
        ≡ (if bytes_eq name other then shadowed else get bytes_eq index.old other) }
{
    match shadowed {
        // The name is there, so this takes no memory.
        Some(place) => {
            let _ = index.insert(name, place);
        }
        None => {
            index.swap_remove(&name);
        }
    }
}

impl<T: Copy> Scoped<T> {
    ghost use Rattle.px_check.specs.Scoped.{meaning_of, IsOver};

    /// No names.
    pub fn new(alloc: Global) -> Scoped<T>
        ensures { result ≡ [] }
    {
        Scoped {
            entries: Vec::new(alloc),
            index: IndexMap::new(alloc),
        }
    }

    /// How many names there are, the shadowed ones too.
    pub fn len(&self) -> usize
        ensures { result ≡ length self.now }
    {
        self.entries.len()
    }

    /// What a name means; None exactly where it isn't there.
    pub fn get(&self, name: &Name) -> Option<T>
        ensures { result ≡ meaning_of name.now self.now }
    {
        let place = *self.index.get(name)?;
        Some(self.entries[place].meaning)
    }

    /// Puts a name with its meaning nearest. With an Err nothing has changed.
    pub fn push(&mut self, alloc: Global, name: &Name, meaning: T) -> Result<(), NoMemory>
        ensures ok { OnOk result (self.new ≡ (name.now, meaning) ∷ self.old) }
        ensures err { OnErr result (self.new ≡ self.old) }
    {
        self.entries.reserve(1)?;
        let own = name.copy(alloc)?;
        let key = name.copy(alloc)?;
        let shadowed = self.index.insert(key, self.entries.len())?;
        let entry = Shadowing {
            name: own,
            meaning,
            shadowed,
        };
        push_in_room(&mut self.entries, entry);
        Ok(())
    }

    /// Puts all names of another scope before its own. With an Err some of them may have been put there.
    pub fn append(&mut self, alloc: Global, other: &Scoped<T>) -> Result<(), NoMemory>
        ensures ok { OnOk result (self.new ≡ other.now ++ self.old) }
        ensures err { OnErr result (IsOver self.old self.new) }
    {
        for entry in &other.entries {
            self.push(alloc, &entry.name, entry.meaning)?;
        }
        Ok(())
    }

    fn pop(&mut self)
        ensures { self.new ≡ drop 1 self.old }
    {
        if let Some(entry) = self.entries.pop() {
            restore(&mut self.index, entry.name, entry.shadowed);
        }
    }

    /// Takes the nearest names away, down to this many. So names that were put nearest are gone again, without a need
    /// of memory.
    pub fn truncate(&mut self, len: usize)
        ensures { self.new ≡ drop (length self.old - len) self.old }
    {
        while self.len() > len {
            self.pop();
        }
    }
}
