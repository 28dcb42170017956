// The bytes of a disk in memory, with the record of their moments.
ghost use Rattle.std.specs.Prelude.{◌≡◌, ◌≤◌, [], ◌∷◌, length, OnOk, OnErr, IfOk, replicate};
ghost use Rattle.px_ports.specs.Contents.{Adds, AddsIfRoom};
ghost use Rattle.px_ports.specs.Moment.{overwritten};
ghost use Rattle.px_ports.specs.Replay.{read_of, picked_write, picked};
ghost use Rattle.px_ports.specs.declared.moment.Moment.TheVariants.{Began, Wrote, FailedToWrite, Synced};

use crate::moment::{Bytes, Moment};
use crate::pick::Pick;
use px_value::NoMemory;
use std::alloc::Global;
use std::marker::Model;

/// Bytes, and all that has happened to them since the beginning.
#[derive(Drop)]
pub struct Contents {
    moments: Vec<Moment>,
    bytes: Vec<u8>,
}

impl Model for Contents {
    ghost use Rattle.std.specs.Prelude.{◌≡◌};
    ghost use Rattle.std.specs.Vec.{vec_capacity};
    ghost use Rattle.px_ports.specs.Contents.{ContentsState};
    ghost use Rattle.px_ports.specs.Replay.{read_of};

    ghost Value = { ContentsState };

    ghost view = { λ c. record { moments = c.moments.items; room = vec_capacity c.moments } };

    ghost invariant = { λ c. c.bytes.items ≡ read_of c.moments.items };
}

impl Contents {
    /// These bytes, all of them synced.
    pub fn new(alloc: Global, bytes: Vec<u8>) -> Result<Contents, NoMemory>
        ensures { IfOk result (λ contents. contents.moments ≡ Began bytes.items ∷ []) }
    {
        let mut moments = Vec::new(alloc);
        moments.push(Moment::Began(Bytes::copied(alloc, &bytes)?))?;
        Ok(Contents { moments, bytes })
    }

    /// What a read gives.
    pub fn bytes(&self) -> &[u8]
        ensures { result.now ≡ read_of self.now.moments }
    {
        &self.bytes
    }

    /// Writes over what is there and past the end. An `Err` changes no byte.
    pub fn write(&mut self, alloc: Global, at: u64, bytes: &[u8]) -> Result<(), NoMemory>
        ensures ok { OnOk result (Adds (Wrote at bytes.now) self.old self.new) }
        ensures err { OnErr result (self.new.moments ≡ self.old.moments) }
        ensures room { self.old.room ≤ self.new.room }
    {
        let written = Bytes::copied(alloc, bytes)?;
        self.moments.reserve(1)?;
        overwrite(&mut self.bytes, at as usize, bytes)?;
        self.moments.push(Moment::Wrote { at, bytes: written })?;
        Ok(())
    }

    /// Keeps that a write of so many bytes has failed, if there is room for it or memory.
    pub fn fail_to_write(&mut self, at: u64, length: usize)
        ensures { AddsIfRoom (FailedToWrite at length) self.old self.new }
    {
        let length = length as u64;
        let _ = self.moments.push(Moment::FailedToWrite { at, length });
    }

    /// Syncs what a read gives.
    pub fn sync(&mut self) -> Result<(), NoMemory>
        ensures ok { OnOk result (Adds Synced self.old self.new) }
        ensures err { OnErr result (self.new.moments ≡ self.old.moments) }
    {
        self.moments.push(Moment::Synced)?;
        Ok(())
    }

    /// The picked image, by a replay of all moments.
    pub fn image(&self, alloc: Global, pick: Pick) -> Result<Vec<u8>, NoMemory>
        ensures { IfOk result (λ image. image.items ≡ picked pick self.now.moments) }
    {
        replay(alloc, pick, &self.moments)
    }
}

fn replay(alloc: Global, pick: Pick, moments: &[Moment]) -> Result<Vec<u8>, NoMemory>
    ensures { IfOk result (λ image. image.items ≡ picked pick moments.now) }
{
    let mut image = Vec::new(alloc);
    let mut read = Vec::new(alloc);
    for moment in moments {
        match moment {
            Moment::Began(bytes) => {
                read = bytes.as_slice().to_vec(alloc)?;
                image = bytes.as_slice().to_vec(alloc)?;
            }
            Moment::Wrote { at, bytes } => {
                write_picked(alloc, pick, &mut image, *at as usize, bytes.as_slice())?;
                overwrite(&mut read, *at as usize, bytes.as_slice())?;
            }
            Moment::FailedToWrite { .. } => {}
            Moment::Synced => image = read.to_vec(alloc)?,
        }
    }
    Ok(image)
}

/// Does to the picked image what a write of these bytes makes of it.
fn write_picked(
    alloc: Global,
    pick: Pick,
    image: &mut Vec<u8>,
    at: usize,
    bytes: &[u8],
) -> Result<(), NoMemory>
    ensures { OnOk result (image.new.items ≡ picked_write pick at bytes.now image.old.items) }
{
    match pick {
        Pick::Stable => Ok(()),
        Pick::Reads => overwrite(image, at, bytes),
        Pick::Fill(byte) => {
            let filled = vec![in alloc; byte; bytes.len()]?;
            overwrite(image, at, &filled)
        }
    }
}

/// Puts the bytes at this place, or at the end where it is past it. An `Err` changes nothing.
fn overwrite(file: &mut Vec<u8>, at: usize, bytes: &[u8]) -> Result<(), NoMemory>
    ensures ok { OnOk result (file.new.items ≡ overwritten at bytes.now file.old.items) }
    ensures err { OnErr result (file.new.items ≡ file.old.items) }
{
    let at = at.min(file.len());
    let (over, past) = bytes.split_at(bytes.len().min(file.len() - at));
    file.extend_from_slice(past)?;
    file[at..at + over.len()].copy_from_slice(over);
    Ok(())
}
