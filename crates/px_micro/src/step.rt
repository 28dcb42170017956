// One micro step.
ghost use Rattle.std.specs.Prelude.{◌≡◌, ◌<◌, length, IfOk, OnOk, OnErr};
ghost use Rattle.px_sem.specs.Step.{moves};
ghost use Rattle.px_micro.specs.Candidates.{AreCandidates};
ghost use Rattle.px_micro.specs.Going.{AreAllGoing};
ghost use Rattle.px_micro.specs.Stepping.{AreLeft, HasTold, HaveMoved, Steps, moves_after};
ghost use Rattle.px_parts.specs.Parts.{AreStanding, plan_in, world_in};
ghost use Rattle.px_parts.specs.Seen.{AreSeenAsBefore};

use crate::moving::apply;
use crate::sight::Going;
use crate::turns::{Turns, gather};
use crate::wanting::going;
use px_parts::Parts;
use px_value::NoMemory;
use std::alloc::Global;
use std::mem;

// The moves that were gathered are those of the last step, where they are told; those of before go, for their room.
fn tell(parts: &mut Parts, turns: &mut Turns, tells: bool)
    ensures { HasTold tells turns.old.moves.items parts.old parts.new }
{
    if tells {
        mem::swap(&mut parts.moves, &mut turns.moves);
    }
}

/// Moves all nodes that go, at once, each judged by the world before (the micro relation of the small-step semantics).
/// These are all that go in this world, in preorder, with where they go, and there are some. The room of `turns` is used.
///
/// Ok: the world took one micro step, and `moves` has what was done, in preorder, where it is told, and else what it had.
/// `NoMemory` leaves all as it was, but for what `turns` holds. What was last seen stays.
pub fn act(
    alloc: Global,
    parts: &mut Parts,
    going: &[Going],
    tells: bool,
    turns: &mut Turns,
) -> Result<(), NoMemory>
    requires stand { AreStanding parts.old }
    requires going { AreAllGoing (plan_in parts.old) (world_in parts.old) going.now }
    requires some { 0 < length going.now }
    ensures moved { OnOk result (HaveMoved parts.old parts.new) }
    ensures moves { OnOk result (parts.new.moves.items
        ≡ moves_after tells (moves (plan_in parts.old) (world_in parts.old)) parts.old.moves.items) }
    ensures left { OnErr result (AreLeft parts.old parts.new) }
    ensures stand { AreStanding parts.new }
    ensures seen { AreSeenAsBefore parts.old parts.new }
{
    gather(alloc, parts, going, tells, turns)?;
    parts.cells.reserve(alloc, turns.cells())?;
    parts.actions.reserve(alloc, going.len() as u32)?;
    apply(parts, turns);
    tell(parts, turns, tells);
    Ok(())
}

/// Takes one micro step: all candidates that go move at once. The candidates rise, and each node that has a destination
/// is among them.
///
/// Ok(true): the world was not quiet, and `moves` has what was done, in preorder. Ok(false) exactly where the world is
/// quiet; nothing changes, and there are no moves. `NoMemory` leaves all as it was.
pub fn micro(alloc: Global, parts: &mut Parts, candidates: &[u32]) -> Result<bool, NoMemory>
    requires stand { AreStanding parts.old }
    requires candidates { AreCandidates (plan_in parts.old) (world_in parts.old) candidates.now }
    ensures stepped { IfOk result (Steps parts.old parts.new) }
    ensures left { OnErr result (AreLeft parts.old parts.new) }
    ensures stand { AreStanding parts.new }
{
    let going = going(alloc, parts, candidates)?;
    if going.is_empty() {
        parts.moves.clear();
        return Ok(false);
    }
    let mut turns = Turns::none(alloc);
    act(alloc, parts, &going, true, &mut turns)?;
    Ok(true)
}
