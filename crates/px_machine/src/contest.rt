// The writers that start, and all that go in preorder.
ghost use Rattle.std.specs.Prelude.{OnOk};
ghost use Rattle.px_parts.specs.Parts.{AreStanding, plan_in, world_in};
ghost use Rattle.px_micro.specs.Going.{AreAllGoing};
ghost use Rattle.px_machine.specs.Contest.{HasLooked, IsEachGoing};
ghost use Rattle.px_machine.specs.Right.{IsNow, IsRight};

use crate::kept::Kept;
use crate::looking::{arrival, push_going};
use px_micro::Going;
use px_parts::Parts;
use px_value::NoMemory;
use std::alloc::Global;

// Of each variable that is wanted and free the first of those that would start.
fn push_winners(
    alloc: Global,
    parts: &Parts,
    kept: &Kept,
    going: &mut Vec<Going>,
) -> Result<(), NoMemory>
    requires stand { AreStanding parts.now }
    requires right { IsRight parts.now kept.now }
    requires now { IsNow parts.now kept.now }
    requires looked { HasLooked parts.now kept.now going.old.items }
    ensures { OnOk result (IsEachGoing (plan_in parts.now) (world_in parts.now) going.new.items) }
{
    let winners = kept.claims.winners(alloc)?;
    for node in &winners {
        push_going(going, *node, arrival(parts, kept, *node))?;
    }
    Ok(())
}

/// All nodes that go, in preorder: those that go without asking for a variable, and the winners of the others.
pub(crate) fn contest(
    alloc: Global,
    parts: &Parts,
    kept: &Kept,
    going: &mut Vec<Going>,
) -> Result<(), NoMemory>
    requires stand { AreStanding parts.now }
    requires right { IsRight parts.now kept.now }
    requires now { IsNow parts.now kept.now }
    requires looked { HasLooked parts.now kept.now going.old.items }
    ensures { OnOk result (AreAllGoing (plan_in parts.now) (world_in parts.now) going.new.items) }
{
    push_winners(alloc, parts, kept, going)?;
    going.sort_unstable_by_key(|one| one.node);
    Ok(())
}
