// What the names of a plan stand for.
ghost use Rattle.std.specs.Prelude.{◌≡◌, ◌<◌, ◌^◌, length, IfOk};
ghost use Rattle.px_core.specs.Fit.{IsFit};
ghost use Rattle.px_core.specs.Plan.{tree_of, sites};
ghost use Rattle.px_sem.specs.Tolerances.{tolerances as tolerances_of};
ghost use Rattle.px_flat.specs.Extents.{AreExtents};
ghost use Rattle.px_flat.specs.FitPlan.{IsFitPlan};
ghost use Rattle.px_flat.specs.Laying.{heads_in, heads_of};
ghost use Rattle.px_flat.specs.Lookups.{lookups_of};
ghost use Rattle.px_flat.specs.Row.{paths_of};
ghost use Rattle.px_flat.specs.Rows.{IsLaid, sites_of};
ghost use Rattle.px_flat.specs.Slots.{AreSlots};

use crate::ends::ends;
use crate::extents::extents;
use crate::laying::lay;
use crate::lookups::lookups;
use crate::row::{Extent, Row};
use crate::slots::{Slot, Slots};
use crate::tolerances::tolerances;
use indexmap::IndexSet;
use px_core::{CoreNode, Plan, VarKind};
use px_value::{Name, NoMemory, Path};
use std::alloc::Global;

/// The nodes of a plan in preorder, and what each name in the plan stands for.
#[derive(Drop)]
pub struct Names {
    pub rows: Vec<Row>,
    pub extents: Vec<Extent>,
    pub paths: IndexSet<Path>,
    pub slots: Vec<Slots>,
    pub lookups: IndexSet<Name>,
    /// The distinct tolerances of lookups, rising.
    pub tolerances: Vec<u32>,
    ghost laid: { IsLaid rows.items },
    ghost fit: { ∥ IsFitPlan (sites_of rows.items) ∥₁ },
    ghost extended: { AreExtents (sites_of rows.items) extents.items },
    ghost found: { paths.keys ≡ paths_of (sites_of rows.items) },
    ghost declared: { AreSlots (sites_of rows.items) slots.items },
    ghost looked: { lookups.keys ≡ lookups_of (sites_of rows.items) },
    ghost few: { length lookups.keys < 2 ^ 32 },
    ghost allowed: { tolerances.items ≡ tolerances_of (sites_of rows.items) },
}

// The paths of the rows, in their order.
fn paths_of(alloc: Global, rows: &[Row]) -> Result<IndexSet<Path>, NoMemory>
    requires { IsLaid rows.now }
    ensures { IfOk result (λ paths. paths.keys ≡ paths_of (sites_of rows.now)) }
{
    let mut paths = IndexSet::with_capacity(alloc, rows.len())?;
    for row in rows {
        paths.insert(row.path.copy(alloc)?)?;
    }
    Ok(paths)
}

// The slots of the rows' variables.
fn slots_of(alloc: Global, rows: &[Row], extents: &[Extent]) -> Result<Vec<Slots>, NoMemory>
    requires laid { IsLaid rows.now }
    requires fit { IsFitPlan (sites_of rows.now) }
    requires extended { AreExtents (sites_of rows.now) extents.now }
    ensures { IfOk result (λ slots. AreSlots (sites_of rows.now) slots.items) }
{
    let mut slots = Vec::with_capacity(alloc, rows.len())?;
    for i in 0..rows.len() {
        let first = extents[i].first_cell;
        slots.push(Slots::of(alloc, first, &rows[i].head.variables)?)?;
    }
    Ok(slots)
}

impl Names {
    ghost use Rattle.px_flat.specs.Names.{plan_in};
    ghost use Rattle.px_flat.specs.Numbered.{node_of, place_of, kind_of, lookup_of};
    ghost use Rattle.px_flat.specs.Slots.{place_data};

    /// The names of a plan that has these nodes in preorder.
    pub fn of(alloc: Global, plan: &Plan, nodes: &[&CoreNode]) -> Result<Names, NoMemory>
        requires fit { IsFit (tree_of plan.now) }
        requires nodes { heads_of nodes.now ≡ heads_in (tree_of plan.now) }
        ensures { IfOk result (λ names. plan_in names ≡ sites (tree_of plan.now)) }
    {
        let ends = ends(alloc, plan)?;
        let rows = lay(alloc, plan, ends.len())?;
        let extents = extents(alloc, &rows, &ends)?;
        let slots = slots_of(alloc, &rows, &extents)?;
        let tolerances = tolerances(alloc, nodes)?;
        let lookups = lookups(alloc, nodes)?;
        let paths = paths_of(alloc, &rows)?;
        Ok(Names {
            rows,
            extents,
            paths,
            slots,
            lookups,
            tolerances,
        })
    }

    /// The number of the node at a path; 0 where the plan has no such node.
    pub fn node(&self, path: &Path) -> u32
        ensures { result ≡ node_of (plan_in self.now) path.now }
    {
        match self.paths.get_index_of(path) {
            Some(node) => node as u32,
            None => 0,
        }
    }

    /// The slot of the variable that a node declares; no cells where the plan has no such variable.
    pub fn slot(&self, owner: &Path, name: &Name) -> Slot
        ensures place { place_data result ≡ place_of (plan_in self.now) owner.now name.now }
        ensures kind { result.kind ≡ kind_of (plan_in self.now) owner.now name.now }
    {
        let found = match self.paths.get_index_of(owner) {
            Some(node) => self.slots[node].get(name),
            None => None,
        };
        found.unwrap_or(Slot {
            first: 0,
            size: 0,
            kind: VarKind::Boolean,
        })
    }

    /// The number of a lookup name; 0 where the plan doesn't look it up.
    pub fn lookup(&self, name: &Name) -> u32
        ensures { result ≡ lookup_of (plan_in self.now) name.now }
    {
        match self.lookups.get_index_of(name) {
            Some(lookup) => lookup as u32,
            None => 0,
        }
    }
}
