// A part of a file that was read, so that many short records take one call of the disk.
ghost use Rattle.std.specs.Prelude.{◌≡◌, ◌≤◌, ◌<◌, ◌+◌, ◌-◌, [], min, length, take, drop, slice_range, IsTrue, IfOk, IsErr, OnOk};
ghost use Rattle.std.specs.Option.{ForSome};
ghost use Rattle.px_journal.specs.Goes.{Reads};
ghost use Rattle.px_journal.specs.Window.{Shows};

use crate::record::RECORD_SPAN;
use px_ports::{Disk, DiskFault};
use px_value::NoMemory;
use std::alloc::Global;
use std::cmp::min;
use std::marker::Model;

/// The bytes that are read at a time: more than a record can have with its gate and the next one.
const PIECE: usize = 16_384;

/// The first `filled` bytes of the buffer stand in the file from `place` on.
#[derive(Drop)]
pub(crate) struct Window {
    place: u64,
    filled: usize,
    buffer: Vec<u8>,
}

impl Model for Window {
    ghost use Rattle.std.specs.Prelude.{◌≡◌, ◌≤◌, length, take};
    ghost use Rattle.px_journal.specs.Window.{WindowState};

    ghost Value = { WindowState };

    ghost view = { λ w. record { place = w.place; bytes = take w.filled w.buffer.items } };

    ghost invariant = { λ w. (w.filled ≤ length w.buffer.items) × (length w.buffer.items ≡ 16384) };
}

impl Window {
    /// A window that shows no byte.
    pub(crate) fn new(alloc: Global) -> Result<Window, NoMemory>
        ensures { IfOk result (λ window. (window.place ≡ 0) × (window.bytes ≡ [])) }
    {
        Ok(Window {
            place: 0,
            filled: 0,
            buffer: vec![in alloc; 0; PIECE]?,
        })
    }

    /// Makes the window show the bytes from a gate on, of a file of `size` bytes: all that are left, or as many as a
    /// record can have. It reads only where it doesn't show them yet.
    pub(crate) fn reach<D: Disk>(
        &mut self,
        disk: &mut D,
        gate: u64,
        size: u64,
    ) -> Result<(), DiskFault>
        requires attached { IsTrue (D.is_attached disk.old) }
        requires within { gate < size }
        requires inside { self.old.place + length self.old.bytes ≤ size }
        requires size { ForSome (D.content disk.old) (λ told. size ≡ length told) }
        requires shows { ForSome (D.content disk.old) (Shows self.old) }

        ensures shows { OnOk result (ForSome (D.content disk.old) (Shows self.new)) }
        ensures inside { OnOk result (self.new.place + length self.new.bytes ≤ size) }
        ensures reaches { OnOk result (self.new.place ≤ gate) }
        ensures covers { OnOk result (gate + min (size - gate) 9386 ≤ self.new.place + length self.new.bytes) }

        ensures once { self.old.place ≤ gate → gate + min (size - gate) 9386 ≤ self.old.place + length self.old.bytes
            → (disk.new ≡ disk.old) × (self.new ≡ self.old) }
        ensures reads { Reads D.Disk (IsErr result) disk.old disk.new }
    {
        let wanted = min(size - gate, RECORD_SPAN);
        if self.place <= gate && gate + wanted <= self.place + self.filled as u64 {
            return Ok(());
        }
        let count = min(size - gate, self.buffer.len() as u64) as usize;
        read_front(disk, gate, &mut self.buffer, count)?;
        self.place = gate;
        self.filled = count;
        Ok(())
    }

    /// The bytes that it shows from a gate on.
    pub(crate) fn from(&self, gate: u64) -> &[u8]
        requires reaches { self.now.place ≤ gate }
        requires within { gate ≤ self.now.place + length self.now.bytes }
        ensures { result.now ≡ drop (gate - self.now.place) self.now.bytes }
    {
        &self.buffer[(gate - self.place) as usize..self.filled]
    }
}

/// Reads so many bytes from a place on to the front of the buffer.
fn read_front<D: Disk>(
    disk: &mut D,
    place: u64,
    buffer: &mut [u8],
    count: usize,
) -> Result<(), DiskFault>
    requires attached { IsTrue (D.is_attached disk.old) }
    requires room { count ≤ length buffer.old }
    requires within { ForSome (D.content disk.old) (λ told. place + count ≤ length told) }

    ensures front { OnOk result (ForSome (D.content disk.old)
        (λ told. take count buffer.new ≡ slice_range told place (place + count))) }
    ensures reads { Reads D.Disk (IsErr result) disk.old disk.new }
{
    disk.read_at(place, &mut buffer[..count])
}
