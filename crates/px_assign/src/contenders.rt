// Who holds a variable, and who of those that want it goes first.
ghost use Rattle.std.specs.Prelude.{◌≡◌, ◌<◌, ℕ, length, IfOk, OnOk};
ghost use Rattle.std.specs.BTreeMap.{get};
ghost use Rattle.std.specs.BTreeSet.{contains};
ghost use Rattle.std.specs.List.{list_any, All};
ghost use Rattle.std.specs.Option.{ForSome};
ghost use Rattle.std.specs.Ordering.{nat_cmp};
ghost use Rattle.px_flat.specs.Flat.{plan_of};
ghost use Rattle.px_assign.specs.Contending.{IsFirst, claimed, stays};
ghost use Rattle.px_assign.specs.Conflicts.{writes, variable_of};

use crate::writing::{goes_before, variable_of};
use px_flat::Flat;
use px_value::NoMemory;
use std::alloc::Global;
use std::collections::{BTreeMap, BTreeSet};

/// The variables that nodes hold.
pub(crate) fn held(alloc: Global, flat: &Flat, holding: &[u32]) -> Result<BTreeSet<u32>, NoMemory>
    requires { All (λ node. node < length (plan_of flat.now)) holding.now }
    ensures { IfOk result (λ held. (variable : ℕ) →
        contains nat_cmp held variable ≡ list_any (writes (plan_of flat.now) variable) holding.now) }
{
    let mut held = BTreeSet::new(alloc);
    for node in holding {
        if let Some(variable) = variable_of(flat, *node) {
            held.insert(variable)?;
        }
    }
    Ok(held)
}

/// Who goes first, for each variable that is wanted.
pub(crate) fn first_writers(
    alloc: Global,
    flat: &Flat,
    wanting: &[u32],
) -> Result<BTreeMap<u32, u32>, NoMemory>
    requires { All (λ node. node < length (plan_of flat.now)) wanting.now }
    ensures { IfOk result (λ first. (variable : ℕ) →
        IsFirst (plan_of flat.now) variable wanting.now (get nat_cmp first variable)) }
{
    let mut first = BTreeMap::new(alloc);
    for node in wanting {
        claim(flat, &mut first, *node)?;
    }
    Ok(first)
}

// One more node wants the variable that it writes.
fn claim(flat: &Flat, first: &mut BTreeMap<u32, u32>, node: u32) -> Result<(), NoMemory>
    requires node { node < length (plan_of flat.now) }
    requires within { (variable : ℕ)
        → ForSome (get nat_cmp first.old variable) (λ other. other < length (plan_of flat.now)) }
    ensures { OnOk result ((variable : ℕ) →
        get nat_cmp first.new variable ≡ claimed (plan_of flat.now) variable node (get nat_cmp first.old variable)) }
{
    let Some(variable) = variable_of(flat, node) else {
        return Ok(());
    };
    let is_better = match first.get(&variable) {
        Some(other) => goes_before(flat, node, *other),
        None => true,
    };
    if is_better {
        first.insert(variable, node)?;
    }
    Ok(())
}

/// Whether a node stays for another writer of its variable.
pub(crate) fn stays(
    flat: &Flat,
    held: &BTreeSet<u32>,
    first: &BTreeMap<u32, u32>,
    node: u32,
) -> bool
    requires { node < length (plan_of flat.now) }
    ensures { result
        ≡ stays (contains nat_cmp held.now) (get nat_cmp first.now) node (variable_of (plan_of flat.now) node) }
{
    match variable_of(flat, node) {
        Some(variable) => held.contains(&variable) || first.get(&variable) != Some(&node),
        None => false,
    }
}
