// The names of threads: through which interface each of them posts.
ghost use Rattle.std.specs.Prelude.{◌≡◌, None, [], ◌∷◌, ◌++◌, IsTrue, OnOk, OnErr};
ghost use Rattle.std.specs.Cmp.{and_equiv, on_equiv, nat_eq_equiv, partial_equiv_from_equiv};
ghost use Rattle.std.specs.Cmp.Lexicographic.{pointwise, nat_list_eq_equiv, lists_equiv};
ghost use Rattle.std.specs.Option.{option_copied};
ghost use Rattle.px_event.specs.Fit.{is_report_name};
ghost use Rattle.px_event.specs.Names.{name_of, are_names, is_same_row};

use px_value::{Name, NoMemory};
use std::alloc::Global;
use std::marker::Model;

/// A thread, and the name of the interface through which it posts.
#[derive(Drop, PartialEq, Eq)]
pub struct ThreadName {
    pub thread: u8,
    /// An identifier.
    pub name: Name,
}

/// The names of threads. A thread has one at most, and each is an identifier.
#[derive(Drop)]
pub struct Names {
    list: Vec<ThreadName>,
}

impl Model for Names {
    ghost use Rattle.std.specs.Prelude.{List, IsTrue};
    ghost use Rattle.px_event.specs.Names.{are_names};
    ghost use Rattle.px_event.specs.declared.names.ThreadName.{ThreadName as Row};

    ghost Value = { List Row };

    ghost view = { λ names. names.list.items };

    ghost invariant = { λ names. IsTrue (are_names names.list.items) };
}

impl Names {
    /// No names.
    pub fn new(alloc: Global) -> Names
        ensures { result ≡ [] }
    {
        Names {
            list: Vec::new(alloc),
        }
    }

    /// The name of a thread, where it has one. It takes no memory.
    pub fn of(&self, thread: u8) -> Option<&Name>
        ensures name { option_copied result ≡ name_of thread self.now }
        ensures names { IsTrue (are_names self.now) }
    {
        name_in(self.list.as_slice(), thread)
    }

    /// Whether no thread has a name.
    pub fn is_empty(&self) -> bool
        ensures none { IsTrue result → self.now ≡ [] }
        ensures some { self.now ≡ [] → IsTrue result }
    {
        self.list.is_empty()
    }

    /// Names a thread that has no name yet. After an `Err` it has none.
    pub fn add(&mut self, thread: u8, name: Name) -> Result<(), NoMemory>
        requires unnamed { name_of thread self.old ≡ None }
        requires identifier { IsTrue (is_report_name name) }
        ensures ok { OnOk result (self.new ≡ self.old ++ record { thread = thread; name = name } ∷ []) }
        ensures err { OnErr result (self.new ≡ self.old) }
    {
        self.list.push(ThreadName { thread, name })?;
        Ok(())
    }
}

impl PartialEq for Names {
    ghost eq = { pointwise is_same_row };

    ghost laws = { partial_equiv_from_equiv
        (lists_equiv (and_equiv (on_equiv (λ row. row.thread) nat_eq_equiv) (on_equiv (λ row. row.name) nat_list_eq_equiv))) };

    fn eq(&self, other: &Self) -> bool {
        self.list.as_slice() == other.list.as_slice()
    }
}

impl Eq for Names {
    ghost laws = { lists_equiv (and_equiv (on_equiv (λ row. row.thread) nat_eq_equiv) (on_equiv (λ row. row.name) nat_list_eq_equiv)) };
}

fn name_in(mut rows: &[ThreadName], thread: u8) -> Option<&Name>
    ensures { option_copied result ≡ name_of thread rows.entry.now }
{
    while let [row, rest @ ..] = rows {
        if row.thread == thread {
            return Some(&row.name);
        }
        rows = rest;
    }
    None
}
