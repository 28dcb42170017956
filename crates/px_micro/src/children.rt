// Whether the children of a node are at rest.
ghost use Rattle.std.specs.Prelude.{◌≡◌, ◌<◌, length};
ghost use Rattle.px_sem.specs.Guards.{each_child, is_at_rest};
ghost use Rattle.px_flat.specs.Row.{site_in};
ghost use Rattle.px_parts.specs.Parts.{AreStanding, plan_in, world_in};

use crate::states::is_at_rest;
use px_parts::{Parts, state_of};

/// Whether every child of a node is WAITING or FINISHED. The first child stands behind its parent, and each other one
/// behind the last descendant of the one before.
pub fn children_rest(parts: &Parts, node: u32) -> bool
    requires stand { AreStanding parts.now }
    requires node { node < length (plan_in parts.now) }
    ensures { result ≡ each_child is_at_rest (plan_in parts.now) (world_in parts.now) (site_in (plan_in parts.now) node).path }
{
    let end = parts.flat.extent(node).end;
    let mut child = node + 1;
    'children: while child < end {
        if !is_at_rest(state_of(parts, child)) {
            return false;
        }
        child = parts.flat.extent(child).end;
    }
    true
}
