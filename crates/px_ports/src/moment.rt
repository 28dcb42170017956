// The moments of a disk: what each call did to its bytes.
ghost use Rattle.std.specs.Prelude.{◌≡◌, IfOk};

use px_value::NoMemory;
use std::alloc::Global;
use std::marker::Model;

/// Bytes in order. To contracts they are a list.
#[derive(Drop)]
pub struct Bytes {
    items: Vec<u8>,
}

impl Model for Bytes {
    ghost use Rattle.std.specs.Prelude.{ℕ, List};

    ghost Value = { List ℕ };

    ghost view = { λ b. b.items.items };
}

impl Bytes {
    /// A copy of these bytes.
    pub fn copied(alloc: Global, bytes: &[u8]) -> Result<Bytes, NoMemory>
        ensures { IfOk result (λ copy. copy ≡ bytes.now) }
    {
        Ok(Bytes {
            items: bytes.to_vec(alloc)?,
        })
    }

    /// The bytes, in order.
    pub fn as_slice(&self) -> &[u8]
        ensures { result.now ≡ self.now }
    {
        self.items.as_slice()
    }
}

/// What happened to the bytes of a disk at a moment.
#[derive(Drop)]
pub enum Moment {
    /// The disk began, with these bytes, all of them synced.
    Began(Bytes),
    /// These bytes were written at this place.
    Wrote { at: u64, bytes: Bytes },
    /// A write of so many bytes at this place failed.
    FailedToWrite { at: u64, length: u64 },
    /// The bytes that a read gives were synced.
    Synced,
}
