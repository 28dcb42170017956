// Which candidates go: those that have a destination, less the losers of conflicts over a variable.
ghost use Rattle.std.specs.Prelude.{◌≡◌, ◌<◌, ◌&&◌, not, nat_eq, length, filter, All, AllPairs, IfOk};
ghost use Rattle.std.specs.List.{list_any};
ghost use Rattle.px_sem.specs.Guards.{is_executing, is_waiting};
ghost use Rattle.px_sem.specs.World.{state_at};
ghost use Rattle.px_flat.specs.Row.{site_in};
ghost use Rattle.px_micro.specs.Candidates.{AreCandidates};
ghost use Rattle.px_micro.specs.Going.{wanted, wanting, holding, AreAllGoing};
ghost use Rattle.px_parts.specs.Parts.{AreStanding, plan_in, world_in};

use crate::sight::{Going, wanted};
use crate::states::{is_active, is_executing, is_waiting};
use px_assign::losers;
use px_parts::{Parts, state_of};
use px_value::{NoMemory, NodeState};
use std::alloc::Global;

// The state of a node in the world.
fn state_at(parts: &Parts, node: u32) -> NodeState
    requires stand { AreStanding parts.now }
    requires node { node < length (plan_in parts.now) }
    ensures { result ≡ state_at (world_in parts.now) (site_in (plan_in parts.now) node).path }
{
    state_of(parts, node)
}

// Whether a node that has a destination would start.
fn starts(parts: &Parts, going: Going) -> bool
    requires stand { AreStanding parts.now }
    requires node { going.node < length (plan_in parts.now) }
    ensures { result ≡ (is_waiting (state_at (world_in parts.now) (site_in (plan_in parts.now) going.node).path)
        && is_executing going.arrival.to) }
{
    is_waiting(state_at(parts, going.node)) && is_executing(going.arrival.to)
}

// Of those that have a destination, the ones that would start.
fn wanting(alloc: Global, parts: &Parts, wanted: &[Going]) -> Result<Vec<u32>, NoMemory>
    requires stand { AreStanding parts.now }
    requires within { All (λ going. going.node < length (plan_in parts.now)) wanted.now }
    ensures { IfOk result (λ nodes. nodes.items
        ≡ wanting (plan_in parts.now) (world_in parts.now) wanted.now) }
{
    let mut nodes = Vec::new(alloc);
    for going in wanted {
        if starts(parts, *going) {
            nodes.push(going.node)?;
        }
    }
    Ok(nodes)
}

// The nodes at work, which hold what they write.
fn holding(alloc: Global, parts: &Parts) -> Result<Vec<u32>, NoMemory>
    requires stand { AreStanding parts.now }
    ensures { IfOk result (λ nodes. nodes.items ≡ holding (plan_in parts.now) (world_in parts.now)) }
{
    let mut nodes = Vec::new(alloc);
    for node in 0..parts.flat.nodes() {
        if is_active(state_at(parts, node)) {
            nodes.push(node)?;
        }
    }
    Ok(nodes)
}

// Whether a number is among numbers that rise.
fn is_among(nodes: &[u32], node: u32) -> bool
    requires { AllPairs (λ a b. a < b) nodes.now }
    ensures { result ≡ list_any (nat_eq node) nodes.now }
{
    nodes.binary_search(&node).is_ok()
}

// Those that are none of the losers.
fn staying(alloc: Global, wanted: &[Going], losers: &[u32]) -> Result<Vec<Going>, NoMemory>
    requires { AllPairs (λ a b. a < b) losers.now }
    ensures { IfOk result (λ kept. kept.items
        ≡ filter (λ one. not (list_any (nat_eq one.node) losers.now)) wanted.now) }
{
    let mut kept = Vec::with_capacity(alloc, wanted.len())?;
    for one in wanted {
        if !is_among(losers, one.node) {
            kept.push(*one)?;
        }
    }
    Ok(kept)
}

/// All nodes that go, in preorder, with where they go: the candidates that have a destination, less the losers of
/// conflicts over a variable. The candidates rise, and each node that has a destination is among them. The world is quiet
/// exactly where none goes.
pub fn going(alloc: Global, parts: &Parts, candidates: &[u32]) -> Result<Vec<Going>, NoMemory>
    requires stand { AreStanding parts.now }
    requires candidates { AreCandidates (plan_in parts.now) (world_in parts.now) candidates.now }
    ensures { IfOk result (λ made. AreAllGoing (plan_in parts.now) (world_in parts.now) made.items) }
{
    let wanted = wanted(alloc, parts, candidates)?;
    let wanting = wanting(alloc, parts, &wanted)?;
    let holding = holding(alloc, parts)?;
    let losers = losers(alloc, &parts.flat, &wanting, &holding)?;
    staying(alloc, &wanted, &losers)
}
