// What a move does beside the change of state: what it writes, what the node has under way after it, and what is told.
ghost use Rattle.std.specs.Prelude.{◌≡◌, ◌+◌, ◌<◌, ◌^◌, IfOk};
ghost use Rattle.px_core.specs.Plan as core;
ghost use Rattle.px_sem.specs.Effects.{cell_of, told_write};
ghost use Rattle.px_micro.specs.Doing.{silent, writing};
ghost use Rattle.px_micro.specs.Places.{place_data};

use crate::places::Place;
use px_core::Target;
use px_flat::Act;
use px_sem::Effect;
use px_value::{NoMemory, Value};
use std::alloc::Global;

/// What is written: a value into a cell of a variable, which is told by its first cell.
#[derive(Drop)]
pub struct CellWrite {
    pub variable: u32,
    pub cell: u32,
    pub value: Value,
}

/// What a node has under way after its move.
#[derive(Drop)]
pub enum UnderWay {
    /// What it had.
    Kept,
    /// This, and nothing was said of it so far.
    Begun(Act),
    /// Its command, which is asked to abort, with the index of its result.
    Aborting { index: Option<u32> },
}

#[derive(Drop)]
pub struct Effects {
    pub write: Option<CellWrite>,
    pub under_way: UnderWay,
    pub told: Option<Effect>,
}

/// Nothing is written, and nothing is told.
pub fn silent(under_way: UnderWay) -> Effects
    ensures { result ≡ silent under_way }
{
    Effects {
        write: None,
        under_way,
        told: None,
    }
}

// What is told of a write.
fn wrote(alloc: Global, target: &Target, place: Place, value: &Value) -> Result<Effect, NoMemory>
    ensures { IfOk result (λ told. told ≡ told_write (record {
      owner = target.now.owner;
      name = target.now.name;
      place = place_data place;
      value = value.now;
    })) }
{
    Ok(Effect::Wrote {
        owner: target.owner.copy(alloc)?,
        name: target.name.copy(alloc)?,
        index: place.index(),
        value: value.copy(alloc)?,
    })
}

/// A write, which is told.
pub fn writing(
    alloc: Global,
    target: &Target,
    first: u32,
    place: Place,
    value: Value,
    under_way: UnderWay,
) -> Result<Effects, NoMemory>
    requires { first + cell_of (place_data place) < 2 ^ 32 }
    ensures { IfOk result (λ made. made ≡ writing (core.target_data target.now) first place value under_way) }
{
    let told = wrote(alloc, target, place, &value)?;
    let write = CellWrite {
        variable: first,
        cell: first + place.offset(),
        value,
    };
    Ok(Effects {
        write: Some(write),
        under_way,
        told: Some(told),
    })
}
