// Where a node goes: the row that its guards decide.
ghost use Rattle.std.specs.Prelude.{◌≡◌, ◌<◌, ◌++◌, [], length, IfOk, OnOk};
ghost use Rattle.std.specs.BTreeMap.{get};
ghost use Rattle.std.specs.List.{All, cons_option};
ghost use Rattle.std.specs.Ordering.{nat_cmp};
ghost use Rattle.px_sem.specs.Conflicts.{destination};
ghost use Rattle.px_flat.specs.Row.{site_in};
ghost use Rattle.px_micro.specs.Above.{AreRight};
ghost use Rattle.px_micro.specs.Going.{wanted, with_node};
ghost use Rattle.px_parts.specs.Parts.{AreStanding, plan_in, world_in};

use crate::guarded::guards_of;
use px_parts::{Parts, state_of};
use px_sem::Arrival;
use px_told::Asks;
use px_value::NoMemory;
use std::alloc::Global;
use std::collections::BTreeMap;

/// A node that has a row, and where the row leads.
#[derive(Clone, Copy, PartialEq, Eq)]
pub struct Going {
    /// The number of the node.
    pub node: u32,
    /// The state, the outcome and the failure after its move.
    pub arrival: Arrival,
}

fn destination(
    alloc: Global,
    parts: &Parts,
    known: &mut BTreeMap<u32, Asks>,
    node: u32,
) -> Result<Option<Arrival>, NoMemory>
    requires stand { AreStanding parts.now }
    requires node { node < length (plan_in parts.now) }
    requires known { AreRight (plan_in parts.now) (world_in parts.now) (get nat_cmp known.old) }
    ensures destination { IfOk result (λ arrival. arrival
        ≡ destination (plan_in parts.now) (world_in parts.now) (site_in (plan_in parts.now) node)) }
    ensures known { OnOk result (AreRight (plan_in parts.now) (world_in parts.now) (get nat_cmp known.new)) }
{
    let guards = guards_of(alloc, parts, known, node)?;
    let kind = parts.flat.row(node).head.kind;
    Ok(px_tables::dest(kind, state_of(parts, node), &guards))
}

// Where a node goes, if it goes anywhere.
fn push_going(wanted: &mut Vec<Going>, node: u32, arrival: Option<Arrival>) -> Result<(), NoMemory>
    ensures { OnOk result (wanted.new.items ≡ wanted.old.items ++ cons_option (with_node node arrival) []) }
{
    if let Some(arrival) = arrival {
        wanted.push(Going { node, arrival })?;
    }
    Ok(())
}

/// The candidates that have a destination, with it.
pub fn wanted(alloc: Global, parts: &Parts, candidates: &[u32]) -> Result<Vec<Going>, NoMemory>
    requires stand { AreStanding parts.now }
    requires within { All (λ node. node < length (plan_in parts.now)) candidates.now }
    ensures { IfOk result (λ going. going.items ≡ wanted (plan_in parts.now) (world_in parts.now) candidates.now) }
{
    let mut known = BTreeMap::new(alloc);
    let mut wanted = Vec::new(alloc);
    for node in candidates {
        let arrival = destination(alloc, parts, &mut known, *node)?;
        push_going(&mut wanted, *node, arrival)?;
    }
    Ok(wanted)
}
