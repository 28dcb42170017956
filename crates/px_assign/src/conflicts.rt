// The losers of conflicts over a variable.
ghost use Rattle.std.specs.Prelude.{◌≡◌, ◌<◌, length, filter, IfOk};
ghost use Rattle.std.specs.List.{All};
ghost use Rattle.px_sem.specs.World.{World};
ghost use Rattle.px_flat.specs.Flat.{plan_of};
ghost use Rattle.px_assign.specs.Conflicts.{is_loser, is_loser_in, AreWriters};

use crate::contenders::{first_writers, held, stays};
use px_flat::Flat;
use px_value::NoMemory;
use std::alloc::Global;

/// The nodes of `wanting` that must stay WAITING, in their order: a node of `holding` writes the same variable, or
/// another node of `wanting` does and goes before, by the lower priority number or by the earlier place (PLEXIL
/// reference manual, "Assignment Nodes").
pub fn losers(
    alloc: Global,
    flat: &Flat,
    wanting: &[u32],
    holding: &[u32],
) -> Result<Vec<u32>, NoMemory>
    requires wanting { All (λ node. node < length (plan_of flat.now)) wanting.now }
    requires holding { All (λ node. node < length (plan_of flat.now)) holding.now }
    ensures numbers { IfOk result (λ losers. losers.items
        ≡ filter (is_loser (plan_of flat.now) wanting.now holding.now) wanting.now) }
    // In a world where just these would start and hold their variables they are the losers of the semantics.
    ensures nodes { IfOk result (λ losers. (world : World)
        → AreWriters (plan_of flat.now) world wanting.now holding.now
        → losers.items ≡ filter (is_loser_in (plan_of flat.now) world) wanting.now) }
{
    let held = held(alloc, flat, holding)?;
    let first = first_writers(alloc, flat, wanting)?;
    let mut losers = Vec::new(alloc);
    for node in wanting {
        if stays(flat, &held, &first, *node) {
            losers.push(*node)?;
        }
    }
    Ok(losers)
}
