// The news of the world, noted: what reads it is to be looked at again, and the nodes of which it is fall behind.
// It takes no memory.
ghost use Rattle.std.specs.Prelude.{◌≡◌, ◌<◌, ◌^◌, ℕ, false, length, OnOk, IfSome, IsNone, IsSome};
ghost use Rattle.px_flat.specs.Flat.{plan_of};
ghost use Rattle.px_flat.specs.Layout.{all_cells, variable_cells};
ghost use Rattle.px_flat.specs.Lookups.{lookups_of};
ghost use Rattle.px_cached.specs.Cached.{AreFresh, HasTouchedCell, plan_in as plan_of_conditions, present_in};
ghost use Rattle.px_cached.specs.Conditions.{all_sources};
ghost use Rattle.px_links.specs.Links.{is_absent};
ghost use Rattle.px_parts.specs.Parts.{AreSame, AreStanding, plan_in};
ghost use Rattle.px_machine.specs.Hearing.{HasHeard, HasHeardLatched, heard_by};
ghost use Rattle.px_machine.specs.Kept.{IsOfPlan};
ghost use Rattle.px_machine.specs.Noticing.{HaveNotedActs, HaveNotedCells, IsCellOf, IsNoticed, IsRefreshed, IsSeenBut};
ghost use Rattle.px_machine.specs.Queue.{FallBehind, NobodyIsWoken};
ghost use Rattle.px_machine.specs.Right.{IsRight};
ghost use Rattle.px_machine.specs.Seen.{IsSeen};

use crate::kept::Kept;
use crate::queue::BEHIND;
use px_cached::Cached;
use px_event::Event;
use px_flat::Flat;
use px_links::Links;
use px_parts::Parts;
use px_value::NoMemory;
use std::alloc::Global;

/// How many cells a node has beside its variables.
const NODE_CELLS: u32 = 5;

// The node of which a cell is, if it is none of a variable.
fn node_of(flat: &Flat, cell: u32) -> Option<u32>
    requires { cell < all_cells (plan_of flat.now) }
    ensures node { IfSome result (λ node. IsCellOf (plan_of flat.now) node cell) }
    ensures within { IfSome result (λ node. node < length (plan_of flat.now)) }
    ensures none { IsNone result → cell < variable_cells (plan_of flat.now) }
{
    let behind = cell.checked_sub(flat.variable_cells())?;
    Some(behind / NODE_CELLS)
}

// A cell has news.
fn note_cell(flat: &Flat, conditions: &mut Cached, queue: &mut Links, cell: u32)
    requires plan { plan_of_conditions conditions.old ≡ plan_of flat.now }
    requires cell { cell < all_cells (plan_of flat.now) }
    requires cells { queue.old.cells ≡ length (plan_of flat.now) }
    requires lists { length queue.old.lists ≡ 2 }
    ensures touched { HasTouchedCell conditions.old conditions.new cell }
    ensures noted { (node : ℕ) → node < length (plan_of flat.now) → IsCellOf (plan_of flat.now) node cell
        → is_absent queue.new node ≡ false }
    ensures queue { FallBehind queue.old queue.new }
{
    conditions.touch_cell(cell);
    if let Some(node) = node_of(flat, cell) {
        queue.push_back_absent(BEHIND, node);
    }
}

// All cells that have news.
fn note_cells(parts: &Parts, kept: &mut Kept)
    requires stand { AreStanding parts.now }
    requires plan { IsOfPlan (plan_in parts.now) kept.old }
    ensures noted { HaveNotedCells (plan_in parts.now) kept.old kept.new parts.now.cells.news }
    ensures others { IsSeenBut parts.now.cells }
{
    let news = parts.cells.news();
    for cell in news {
        note_cell(&parts.flat, &mut kept.conditions, &mut kept.queue, *cell);
    }
}

// All nodes that have something else under way.
fn note_acts(parts: &Parts, kept: &mut Kept)
    requires stand { AreStanding parts.now }
    requires plan { IsOfPlan (plan_in parts.now) kept.old }
    ensures noted { HaveNotedActs kept.old kept.new parts.now.actions.news }
    ensures others { IsSeenBut parts.now.actions }
{
    let news = parts.actions.news();
    for node in news {
        kept.queue.push_back_absent(BEHIND, *node);
    }
}

/// Takes the news: the world is seen as it is.
pub(crate) fn notice(parts: &mut Parts, kept: &mut Kept)
    requires stand { AreStanding parts.old }
    requires right { IsRight parts.old kept.old }
    requires seen { IsSeen parts.old kept.old.conditions }
    requires nobody { NobodyIsWoken kept.old.queue }
    ensures noticed { IsNoticed parts.new kept.new }
    ensures same { AreSame parts.old parts.new }
    ensures moves { parts.new.moves.items ≡ parts.old.moves.items }
{
    note_cells(parts, kept);
    note_acts(parts, kept);
    parts.see();
}

/// Looks again at the conditions that read what was new. Each node with one that has changed falls behind. After
/// `NoMemory` some are still to be looked at, and what is kept is as right as after Ok.
pub(crate) fn refresh(alloc: Global, parts: &Parts, kept: &mut Kept) -> Result<(), NoMemory>
    requires stand { AreStanding parts.now }
    requires noticed { IsNoticed parts.now kept.old }
    ensures refreshed { IsRefreshed parts.now kept.new }
    ensures fresh { OnOk result (AreFresh kept.new.conditions (present_in parts.now.cells parts.now.reports)) }
{
    kept.conditions.refresh(
        alloc,
        &parts.flat,
        &parts.cells,
        &parts.reports,
        &mut kept.queue,
        BEHIND,
    )?;
    Ok(())
}

/// The lookup name that an event reports, where the plan looks it up.
pub(crate) fn heard_by(flat: &Flat, event: &Event) -> Option<u32>
    ensures heard { result ≡ heard_by (plan_of flat.now) event.now }
    ensures within { IfSome result (λ lookup. lookup < length (lookups_of (plan_of flat.now))) }
{
    match event {
        Event::Report { name, .. } => flat.lookup_number(name),
        _ => None,
    }
}

// What reads a lookup name with this tolerance is to be looked at again, where a state of it may read another value than at
// the mark.
fn hear_latched(parts: &Parts, conditions: &mut Cached, lookup: u32, tolerance: u32)
    requires plan { plan_of_conditions conditions.old ≡ plan_in parts.now }
    requires few { all_sources (plan_in parts.now) < 2 ^ 32 }
    requires within { lookup < length (lookups_of (plan_in parts.now)) }
    requires marked { IsSome parts.now.reports.marked }
    ensures { HasHeardLatched parts.now conditions.old conditions.new lookup tolerance }
{
    if parts.reports.has_moved(tolerance) {
        conditions.touch_report(&parts.flat, lookup, Some(tolerance));
    }
}

// The same with each tolerance, and with none.
fn hear_name(parts: &Parts, conditions: &mut Cached, lookup: u32)
    requires plan { plan_of_conditions conditions.old ≡ plan_in parts.now }
    requires few { all_sources (plan_in parts.now) < 2 ^ 32 }
    requires within { lookup < length (lookups_of (plan_in parts.now)) }
    requires marked { IsSome parts.now.reports.marked }
    ensures { HasHeard parts.now conditions.old conditions.new lookup }
{
    conditions.touch_report(&parts.flat, lookup, None);
    let tolerances = parts.flat.tolerances();
    for tolerance in tolerances {
        hear_latched(parts, conditions, lookup, *tolerance);
    }
}

/// What reads a lookup name is to be looked at again, where a state of it may read another value than at the mark.
pub(crate) fn hear(parts: &Parts, conditions: &mut Cached, heard: Option<u32>)
    requires plan { plan_of_conditions conditions.old ≡ plan_in parts.now }
    requires few { all_sources (plan_in parts.now) < 2 ^ 32 }
    requires within { IfSome heard (λ lookup. lookup < length (lookups_of (plan_in parts.now))) }
    requires marked { IsSome parts.now.reports.marked }
    ensures heard { IfSome heard (HasHeard parts.now conditions.old conditions.new) }
    ensures none { IsNone heard → conditions.new ≡ conditions.old }
{
    if let Some(lookup) = heard {
        hear_name(parts, conditions, lookup);
    }
}
