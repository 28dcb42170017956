// Variables that are wanted and not held, and the first that wants one.
ghost use Rattle.std.specs.Prelude.{◌≡◌, ◌<◌, length, filter_map, Some, None, IfOk, IfSome, if◌then◌else◌};
ghost use Rattle.px_links.specs.Links.{holder_of, HoldsOthersAsBefore, SameCounts};
ghost use Rattle.px_links.specs.Lists.{nth};
ghost use Rattle.px_assign.specs.Keeping.{is_contested};
ghost use Rattle.px_assign.specs.Ordering.{first_at};

use crate::firsts::Firsts;
use px_links::Links;
use px_tally::Tally;
use px_value::NoMemory;
use std::alloc::Global;

/// The list of the variables that are contested.
pub(crate) const CONTESTED: u32 = 0;

/// A variable is contested from now on, where some of its writers would start and none is at work, or it isn't.
pub(crate) fn judge(wanting: &Tally, holding: &Tally, contested: &mut Links, variable: u32)
    requires wanting { variable < wanting.now.groups }
    requires holding { variable < holding.now.groups }
    requires cell { variable < contested.old.cells }
    requires list { 0 < length contested.old.lists }
    requires one_list { IfSome (holder_of contested.old variable) (λ list. list ≡ 0) }
    ensures holders { HoldsOthersAsBefore contested.old contested.new variable
        (if is_contested wanting.now holding.now variable then Some 0 else None) }
    ensures counts { SameCounts contested.old contested.new }
{
    if !wanting.is_nobody(variable) && holding.is_nobody(variable) {
        contested.push_back_absent(CONTESTED, variable);
    } else {
        contested.unlink(variable);
    }
}

/// Of each contested variable the first of its writers that would start.
pub(crate) fn winners(
    alloc: Global,
    firsts: &Firsts,
    contested: &Links,
) -> Result<Vec<u32>, NoMemory>
    requires variables { length firsts.now.places.items ≡ contested.now.cells }
    requires list { 0 < length contested.now.lists }
    ensures { IfOk result (λ winners. winners.items
        ≡ filter_map (first_at firsts.now.places.items firsts.now.writers.items) (nth contested.now.lists 0)) }
{
    let mut winners = Vec::new(alloc);
    let mut at = contested.first(CONTESTED);
    while let Some(variable) = at {
        if let Some(node) = firsts.first(variable) {
            winners.push(node)?;
        }
        at = contested.next(variable);
    }
    Ok(winners)
}
