// What `==` and the bytes of an entry mean: laws that hold of them, each a clause of a function that does nothing.
ghost use Rattle.std.specs.Prelude.{◌≡◌, ◌≤◌, ◌↔◌, IsTrue, length};
ghost use Rattle.px_event.specs.Bytes.{entry_bytes, named_bytes};
ghost use Rattle.px_event.specs.Equality.{event_eq, entry_eq};
ghost use Rattle.px_event.specs.Fit.{is_fit_entry, is_fit_named};
ghost use Rattle.px_event.specs.declared.entry.Entry.{Entry as AnyEntry};
ghost use Rattle.px_event.specs.declared.named.NamedEntry.{NamedEntry as AnyNamed};

use crate::entry::Entry;
use crate::event::Event;

/// `==` of two events answers whether they are equal.
pub fn event_equality(a: &Event, b: &Event)
    ensures { IsTrue (event_eq a.now b.now) ↔ (a.now ≡ b.now) }
{}

/// `==` of two entries answers whether they are equal.
pub fn entry_equality(a: &Entry, b: &Entry)
    ensures { IsTrue (entry_eq a.now b.now) ↔ (a.now ≡ b.now) }
{}

/// No bytes are those of two entries, and a fit entry has at most 9,316 of them.
pub fn one_spelling()
    ensures one { (a b : AnyEntry) → IsTrue (is_fit_entry a) → IsTrue (is_fit_entry b)
        → entry_bytes a ≡ entry_bytes b → a ≡ b }
    ensures short { (entry : AnyEntry) → IsTrue (is_fit_entry entry) → length (entry_bytes entry) ≤ 9316 }
{}

/// No bytes are those of two entries with their names, and they are at most 9,382.
pub fn one_spelling_of_a_name()
    ensures one { (a b : AnyNamed) → IsTrue (is_fit_named a) → IsTrue (is_fit_named b)
        → named_bytes a.name a.entry ≡ named_bytes b.name b.entry → a ≡ b }
    ensures short { (named : AnyNamed) → IsTrue (is_fit_named named)
        → length (named_bytes named.name named.entry) ≤ 9382 }
{}
