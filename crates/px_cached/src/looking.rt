// The truths of parts, looked at again where they may have changed.
ghost use Rattle.std.specs.Prelude.{◌≡◌, ℕ, ◌<◌, ◌≤◌, true, length, Some, IfOk, IfSome, OnOk, OnErr};
ghost use Rattle.px_value.specs.Truth.{truth_of};
ghost use Rattle.px_flat.specs.Flat.{plan_of};
ghost use Rattle.px_flat.specs.Layout.{all_cells};
ghost use Rattle.px_flat.specs.NumberedData.{expr_data};
ghost use Rattle.px_flat.specs.Sources.{Present};
ghost use Rattle.px_flat.specs.Within.{IsWithin};
ghost use Rattle.px_links.specs.Links.{first_of, is_absent, popped};
ghost use Rattle.px_cached.specs.Carrying.{IsOnlyChanged, LooksUp};
ghost use Rattle.px_cached.specs.Cached.{present_in};
ghost use Rattle.px_cached.specs.Climbs.{climb};
ghost use Rattle.px_cached.specs.Conditions.{truth_in};
ghost use Rattle.px_cached.specs.Costs.{full_cost, in_all};
ghost use Rattle.px_cached.specs.Looking.{IsSound, Tells, truth_now};
ghost use Rattle.px_cached.specs.Network.{part_at};

use crate::carrying::{Carried, carry, truth_by_parts};
use crate::laying::Network;
use crate::noticing::{NOTED, all_noted};
use crate::part::Part;
use px_cells::Cells;
use px_eval::value_of;
use px_flat::{Flat, NumberedExpr};
use px_links::Links;
use px_lookup::Reports;
use px_value::{NoMemory, Value};
use std::alloc::Global;

/// The truths of the parts of conditions, and which are to be looked at again.
#[derive(Drop)]
pub(crate) struct Kept {
    pub(crate) network: Network,
    pub(crate) truths: Vec<Option<bool>>,
    pub(crate) stale: Links,
}

fn truth(
    alloc: Global,
    flat: &Flat,
    cells: &Cells,
    reports: &Reports,
    expr: &NumberedExpr,
) -> Result<Option<bool>, NoMemory>
    requires within { IsWithin (plan_of flat.now) (expr_data expr.now) }
    requires cells { length cells.now.contents.values ≡ all_cells (plan_of flat.now) }
    ensures { IfOk result (λ truth.
        truth ≡ truth_in (plan_of flat.now) (present_in cells.now reports.now) (expr_data expr.now)) }
{
    match value_of(alloc, flat, cells, reports, expr)? {
        Value::Boolean(truth) => Ok(Some(truth)),
        _ => Ok(None),
    }
}

impl Kept {
    /// The conditions of a plan's nodes, all parts of which are to be looked at.
    pub(crate) fn of(alloc: Global, flat: &Flat) -> Result<Kept, NoMemory>
        ensures sound { IfOk result (λ made. (seen : Present) → IsSound (plan_of flat.now) seen made) }
        ensures owed { IfOk result (λ made.
            in_all (climb made.network.above.items) made.stale ≤ full_cost (plan_of flat.now)) }
    {
        let network = Network::of(alloc, flat)?;
        let truths = vec![in alloc; None; network.parts.len()]?;
        let stale = all_noted(alloc, network.parts.len() as u32)?;
        Ok(Kept {
            network,
            truths,
            stale,
        })
    }

    // The truth of a part now: evaluated whole, or by the kept ones of those in it.
    fn truth_now(
        &self,
        alloc: Global,
        flat: &Flat,
        cells: &Cells,
        reports: &Reports,
        part: u32,
    ) -> Result<Option<bool>, NoMemory>
        requires cells { length cells.now.contents.values ≡ all_cells (plan_of flat.now) }
        requires sound { IsSound (plan_of flat.now) (present_in cells.now reports.now) self.now }
        requires part { part < length self.now.network.parts.items }
        ensures { IfOk result (λ truth. truth ≡ truth_now (plan_of flat.now) (present_in cells.now reports.now)
            self.now.truths.items (part_at self.now.network.parts.items part)) }
    {
        match &self.network.parts[part as usize] {
            Part::Whole(expr) => truth(alloc, flat, cells, reports, expr),
            Part::Joined { .. } => Ok(truth_by_parts(&self.network.parts, &self.truths, part)),
        }
    }

    // Looks again at the first part of those that are to be looked at, and at the way up.
    fn look(
        &mut self,
        alloc: Global,
        flat: &Flat,
        cells: &Cells,
        reports: &Reports,
        part: u32,
    ) -> Result<Carried, NoMemory>
        requires cells { length cells.now.contents.values ≡ all_cells (plan_of flat.now) }
        requires sound { IsSound (plan_of flat.now) (present_in cells.now reports.now) self.old }
        requires part { part < length self.old.network.parts.items }
        requires first { first_of self.old.stale 0 ≡ Some part }
        ensures network { self.new.network ≡ self.old.network }
        ensures sound { IsSound (plan_of flat.now) (present_in cells.now reports.now) self.new }
        ensures stale { OnOk result (self.new.stale ≡ popped self.old.stale 0) }
        ensures changed { IfOk result (λ carried. IsOnlyChanged self.old.network.above.items
            self.old.truths.items self.new.truths.items carried.changed) }
        ensures node { IfOk result (λ carried. IfSome carried.changed (λ node. node < length (plan_of flat.now))) }
        ensures looks { IfOk result (λ carried. LooksUp self.old.network.above.items part carried.looks) }
        ensures err { OnErr result (self.new ≡ self.old) }
    {
        let truth = self.truth_now(alloc, flat, cells, reports, part)?;
        self.stale.pop_front(NOTED);
        let network = &self.network;
        Ok(carry(
            &network.parts,
            &network.above,
            &mut self.truths,
            part,
            truth,
        ))
    }

    /// Looks again at each part that is to be looked at, and at the way up as far as something changes. The answer is at
    /// how many parts was looked, or the most that it can say: for each that was to be looked at one, and one for each
    /// above it, at most.
    pub(crate) fn refresh(
        &mut self,
        alloc: Global,
        flat: &Flat,
        cells: &Cells,
        reports: &Reports,
        changed: &mut Links,
        list: u32,
    ) -> Result<u32, NoMemory>
        requires cells { length cells.now.contents.values ≡ all_cells (plan_of flat.now) }
        requires sound { IsSound (plan_of flat.now) (present_in cells.now reports.now) self.old }
        requires list { list < length changed.old.lists }
        requires nodes { length (plan_of flat.now) ≤ changed.old.cells }
        ensures network { self.new.network ≡ self.old.network }
        ensures sound { IsSound (plan_of flat.now) (present_in cells.now reports.now) self.new }
        ensures none { OnOk result ((part : ℕ) → is_absent self.new.stale part ≡ true) }
        ensures looks { IfOk result (λ looks. looks ≤ in_all (climb self.old.network.above.items) self.old.stale) }
        ensures left { in_all (climb self.old.network.above.items) self.new.stale
            ≤ in_all (climb self.old.network.above.items) self.old.stale }
        ensures paid { OnOk result (in_all (climb self.old.network.above.items) self.new.stale ≡ 0) }
        ensures told { Tells self.old.network.above.items self.old.truths.items self.new.truths.items
            changed.old changed.new list }
    {
        let mut looks: u32 = 0;
        'stale: while let Some(part) = self.stale.first(NOTED) {
            let carried = self.look(alloc, flat, cells, reports, part)?;
            looks = looks.saturating_add(carried.looks);
            if let Some(node) = carried.changed {
                changed.push_back_absent(list, node);
            }
        }
        Ok(looks)
    }
}
