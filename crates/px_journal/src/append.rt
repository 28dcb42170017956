// A record at the end of a journal.
//
// The record goes behind the closed gate of the last place, with the next gate closed, and is synced before its gate is
// opened by a write of its own. So a torn write of the record stands behind a closed gate, and whatever a torn write
// leaves of the gate means closed or open over a record that is whole.
ghost use Rattle.std.specs.Prelude.{◌≡◌, ◌≤◌, ◌<◌, ◌+◌, ◌-◌, ◌^◌, ◌++◌, [], ◌∷◌, ℕ, List, length, drop, IsTrue, IsErr, OnOk, OnErr, vec_capacity, vec_len};
ghost use Rattle.std.specs.Option.{ForSome};
ghost use Rattle.byteorder.specs.Endian.{big_bytes};
ghost use Rattle.px_event.specs.Appending.{Appends};
ghost use Rattle.px_event.specs.Fit.{is_fit_entry};
ghost use Rattle.px_event.specs.declared.entry.Entry.{Entry as AnyEntry};
ghost use Rattle.px_event.specs.declared.named.NamedEntry.{NamedEntry as AnyNamed};
ghost use Rattle.px_journal.specs.Layout.{body_bytes, is_fit, record_bytes};
ghost use Rattle.px_journal.specs.Crash.{WithOrWithout, WithOrWithoutAs, KeepsHistories, KeepsNames};
ghost use Rattle.px_journal.specs.Goes.{LeavesAtMost, Goes};
ghost use Rattle.px_journal.specs.Journal.{IsReady, IsReadyAs, name_given, with_name};

use crate::journal::Journal;
use crate::layout::{CLOSED, OPEN};
use crate::put::put;
use crate::version::Version;
use byteorder::{BigEndian, ByteOrder};
use px_event::{Entry, Names, push_entry, push_named};
use px_ports::{Disk, DiskFault};
use px_value::NoMemory;

impl<D: Disk> Journal<D> {
    /// Adds an entry, in the second version with the name that its thread has. It takes no memory.
    ///
    /// After `Ok` the entry is kept: each image from then on has it. After a `DiskFault` a crash leaves the history
    /// with the entry or without it, and the journal, which counts its records as before, has to be recovered anew.
    pub fn append(&mut self, entry: &Entry) -> Result<(), DiskFault>
        requires fit { IsTrue (is_fit_entry entry.now) }
        requires room { self.old.count < 100000 }
        requires ready { (text : List ℕ) × (history : List AnyEntry) × IsReady D.Disk self.old text history }

        ensures kept { OnOk result ((text : List ℕ) (history : List AnyEntry) → IsReady D.Disk self.old text history
            → IsReady D.Disk self.new text (history ++ entry.now ∷ [])) }
        ensures named { OnOk result ((text : List ℕ) (named : List AnyNamed) → IsReadyAs D.Disk self.old text named
            → IsReadyAs D.Disk self.new text (named ++ with_name self.old entry.now ∷ [])) }

        ensures whole_or_not { (text : List ℕ) (history : List AnyEntry) → IsReady D.Disk self.old text history
            → LeavesAtMost D.Disk (WithOrWithout text history entry.now) self.old.disk self.new.disk }
        ensures named_or_not { (text : List ℕ) (named : List AnyNamed) → IsReadyAs D.Disk self.old text named
            → LeavesAtMost D.Disk (WithOrWithoutAs self.old.version text named (with_name self.old entry.now))
            self.old.disk self.new.disk }
        ensures keeps { ForSome (D.content self.old.disk)
            (λ _. KeepsHistories D.images (D.moments self.old.disk) (D.moments self.new.disk)) }
        ensures keeps_names { ForSome (D.content self.old.disk)
            (λ _. KeepsNames D.images (D.moments self.old.disk) (D.moments self.new.disk)) }

        ensures goes { Goes D.Disk (IsErr result) self.old.disk self.new.disk }

        ensures version { self.new.version ≡ self.old.version }
        ensures names { self.new.names ≡ self.old.names }
        ensures gate_err { OnErr result (self.new.gate ≡ self.old.gate) }
        ensures count_err { OnErr result (self.new.count ≡ self.old.count) }
    {
        fill(&mut self.buffer, self.version, &self.names, entry);
        put(&mut self.disk, self.gate + 1, &self.buffer)?;
        put(&mut self.disk, self.gate, &[OPEN])?;
        self.gate += self.buffer.len() as u64;
        self.count += 1;
        Ok(())
    }
}

/// Puts the bytes behind a record's gate into the buffer: the length, the body, and the next gate.
fn fill(buffer: &mut Vec<u8>, version: Version, names: &Names, entry: &Entry)
    requires fit { IsTrue (is_fit_entry entry.now) }
    requires room { 9385 ≤ vec_capacity buffer.old }
    ensures fit { IsTrue (is_fit version
        (record { name = name_given version names.now entry.now.thread; entry = entry.now })) }
    ensures bytes { buffer.new.items ≡ record_bytes version
        (record { name = name_given version names.now entry.now.thread; entry = entry.now }) ++ 0 ∷ [] }
    ensures capacity { vec_capacity buffer.old ≤ vec_capacity buffer.new }
{
    buffer.clear();
    push_in_room(buffer, &[0; 2]);
    if push_body(buffer, version, names, entry).is_err() {
        unreachable!();
    }
    tell_length(buffer);
    push_in_room(buffer, &[CLOSED]);
}

/// Appends the body of a record: an entry, in the second version with the name of its thread.
fn push_body(
    buffer: &mut Vec<u8>,
    version: Version,
    names: &Names,
    entry: &Entry,
) -> Result<(), NoMemory>
    requires { IsTrue (is_fit_entry entry.now) }
    ensures fit { IsTrue (is_fit version
        (record { name = name_given version names.now entry.now.thread; entry = entry.now })) }
    ensures bytes { Appends (body_bytes version
        (record { name = name_given version names.now entry.now.thread; entry = entry.now }))
        buffer.old buffer.new result }
{
    match version {
        Version::One => push_entry(buffer, entry),
        Version::Two => push_named(buffer, names.of(entry.thread), entry),
    }
}

/// Puts the number of bytes behind the first two into those two.
fn tell_length(bytes: &mut [u8])
    requires least { 2 ≤ length bytes.old }
    requires most { length bytes.old < 2 + 2 ^ 16 }
    ensures { bytes.new ≡ big_bytes 2 (length bytes.old - 2) ++ drop 2 bytes.old }
{
    let length = bytes.len() - 2;
    BigEndian::write_u16(bytes, length as u16);
}

/// Appends bytes that have room.
fn push_in_room(buffer: &mut Vec<u8>, bytes: &[u8])
    requires { vec_len buffer.old + length bytes.now ≤ vec_capacity buffer.old }
    ensures bytes { buffer.new.items ≡ buffer.old.items ++ bytes.now }
    ensures capacity { vec_capacity buffer.old ≤ vec_capacity buffer.new }
{
    if buffer.extend_from_slice(bytes).is_err() {
        unreachable!();
    }
}
