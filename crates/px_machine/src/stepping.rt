// The phases of a step.
ghost use Rattle.std.specs.Prelude.{◌≡◌, OnOk};
ghost use Rattle.px_parts.specs.Parts.{AreSame};
ghost use Rattle.px_machine.specs.Stepping.{HasChosen, IsReady};

use crate::catching_up::catch_up;
use crate::contest::contest;
use crate::kept::Kept;
use crate::looking::look;
use crate::noticing::{notice, refresh};
use crate::queue::recall;
use px_micro::Going;
use px_parts::Parts;
use px_value::NoMemory;
use std::alloc::Global;

/// Finds all nodes that go, in preorder, in place of those of before. The world stays as it is, and after `NoMemory` what is
/// kept is as right as before.
pub(crate) fn goers(
    alloc: Global,
    parts: &mut Parts,
    kept: &mut Kept,
    going: &mut Vec<Going>,
) -> Result<(), NoMemory>
    requires ready { IsReady parts.old kept.old }
    ensures ready { IsReady parts.new kept.new }
    ensures same { AreSame parts.old parts.new }
    ensures moves { parts.new.moves.items ≡ parts.old.moves.items }
    ensures chosen { OnOk result (HasChosen parts.new kept.new going.new.items) }
{
    recall(&mut kept.queue);
    notice(parts, kept);
    refresh(alloc, parts, kept)?;
    catch_up(parts, kept);
    look(parts, kept, going)?;
    contest(alloc, parts, kept, going)?;
    Ok(())
}
