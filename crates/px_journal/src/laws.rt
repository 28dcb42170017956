// What the layout means: laws that hold of it, each a clause of a function that does nothing.
ghost use Rattle.std.specs.Prelude.{◌≡◌, ◌<◌, ◌⊎◌, ℕ, List, Option, slice_index, IsFalse};
ghost use Rattle.px_event.specs.declared.entry.Entry.{Entry as AnyEntry};
ghost use Rattle.px_event.specs.declared.named.NamedEntry.{NamedEntry as AnyNamed};
ghost use Rattle.px_journal.specs.Damage.{Damaged};
ghost use Rattle.px_journal.specs.Layout.{is_nothing, AreNamesOf, HasVersion, Stands, StandsAs};
ghost use Rattle.px_journal.specs.declared.version.Version.{Version as AnyVersion};

/// Bytes stand for at most one text and one history, and its names are one list.
pub fn one_meaning()
    ensures text { (bytes text other : List ℕ) (history others : List AnyEntry) → Stands bytes text history
        → Stands bytes other others → text ≡ other }
    ensures history { (bytes text other : List ℕ) (history others : List AnyEntry) → Stands bytes text history
        → Stands bytes other others → history ≡ others }
    ensures names { (bytes : List ℕ) (names others : List (Option (List ℕ))) → AreNamesOf bytes names
        → AreNamesOf bytes others → names ≡ others }
{}

/// Bytes have one version at most, and what they stand for is in that version.
pub fn one_version()
    ensures one { (bytes : List ℕ) (version other : AnyVersion) → HasVersion version bytes → HasVersion other bytes
        → version ≡ other }
    ensures stands { (version : AnyVersion) (bytes text : List ℕ) (named : List AnyNamed)
        → StandsAs version bytes text named → HasVersion version bytes }
{}

/// Bytes that stand for a text and a history are damaged at no place.
pub fn never_both()
    ensures { (bytes text : List ℕ) (history : List AnyEntry) (at : ℕ) → Stands bytes text history
        → Damaged bytes at → ⊥ }
{}

/// Bytes are damaged at one place at most.
pub fn one_place()
    ensures { (bytes : List ℕ) (at other : ℕ) → Damaged bytes at → Damaged bytes other → at ≡ other }
{}

/// Bytes that aren't nothing stand for a text and a history, or are damaged at some place.
pub fn either_or()
    ensures { (bytes : List ℕ) → ((i : ℕ) → slice_index bytes i < 256) → IsFalse (is_nothing bytes)
        → ((text : List ℕ) × (history : List AnyEntry) × Stands bytes text history) ⊎ ((at : ℕ) × Damaged bytes at) }
{}
