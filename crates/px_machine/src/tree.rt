// Where each node of a plan stands, and whose child it is.
ghost use Rattle.std.specs.Prelude.{◌≡◌, ◌<◌, length, All, IfOk, IfSome};
ghost use Rattle.px_flat.specs.Flat.{plan_of};
ghost use Rattle.px_told.specs.Preorder.{IsPreorder};
ghost use Rattle.px_machine.specs.Kept.{parents_of, places_of};

use px_flat::Flat;
use px_told::Place;
use px_value::NoMemory;
use std::alloc::Global;

/// Each node's parent, and the number after its last descendant.
pub(crate) fn places(alloc: Global, flat: &Flat) -> Result<Vec<Place>, NoMemory>
    ensures places { IfOk result (λ places. places.items ≡ places_of (plan_of flat.now)) }
    ensures preorder { IfOk result (λ places. IsPreorder places.items) }
{
    let mut places = Vec::with_capacity(alloc, flat.nodes() as usize)?;
    for node in 0..flat.nodes() {
        places.push(Place {
            parent: flat.row(node).parent,
            end: flat.extent(node).end,
        })?;
    }
    Ok(places)
}

/// Each node's parent.
pub(crate) fn parents(alloc: Global, flat: &Flat) -> Result<Vec<Option<u32>>, NoMemory>
    ensures parents { IfOk result (λ parents. parents.items ≡ parents_of (plan_of flat.now)) }
    ensures within { IfOk result (λ parents.
        All (λ parent. IfSome parent (λ parent. parent < length (plan_of flat.now))) parents.items) }
{
    let mut parents = Vec::with_capacity(alloc, flat.nodes() as usize)?;
    for node in 0..flat.nodes() {
        parents.push(flat.row(node).parent)?;
    }
    Ok(parents)
}
