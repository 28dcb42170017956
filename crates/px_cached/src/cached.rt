// The truth of each condition, kept.
ghost use Rattle.std.specs.Prelude.{◌≡◌, ℕ, ◌<◌, ◌≤◌, ◌^◌, length, IfOk, OnOk};
ghost use Rattle.px_flat.specs.Flat.{plan_of};
ghost use Rattle.px_flat.specs.Layout.{all_cells};
ghost use Rattle.px_flat.specs.Lookups.{lookups_of};
ghost use Rattle.px_flat.specs.Sources as sources;
ghost use Rattle.px_cached.specs.Cached.{AreFresh, HasTouchedCell, HasTouchedReports, IsSeen, IsSeenBut, IsTouched, TellsChanged, due, kept_truth, plan_in, present_in};
ghost use Rattle.px_cached.specs.Conditions.{all_sources, source_number};
ghost use Rattle.px_cached.specs.Costs.{full_cost, in_all};

use crate::firsts::{first_cells, source_of};
use crate::kinds::place_of;
use crate::looking::Kept;
use crate::noticing::{NOTED, notice};
use crate::reading::listeners;
use crate::sources::{report_source, source_count};
use crate::still::Asker;
use crate::watching::{Watch, watches};
use px_cells::Cells;
use px_core::ConditionKind;
use px_flat::Flat;
use px_links::Links;
use px_listen::Listeners;
use px_lookup::Reports;
use px_value::NoMemory;
use std::alloc::{AllocError, Global};
use std::marker::Model;
use std::snapshot::Snapshot;

/// The truth of each condition of a plan's nodes, as it was when it was last looked at. No call but `new` and `refresh`
/// takes memory.
#[derive(Drop)]
pub struct Cached {
    flat: Snapshot<Flat>,
    kept: Kept,
    /// Of each source the parts that are evaluated whole and read it.
    listeners: Listeners,
    /// Of each lookup name the parts that read it without a tolerance.
    watches: Vec<Watch>,
    /// One list of sources.
    touched: Links,
    /// The first cell of the variable of each variable cell.
    firsts: Vec<u32>,
    seen_cells: Snapshot<Cells>,
    seen_reports: Snapshot<Reports>,
}

impl Model for Cached {
    ghost use Rattle.std.specs.Coded.{codes};
    ghost use Rattle.px_flat.specs.contracts.flat.Flat as tables;
    ghost use Rattle.px_cached.specs.Cached.{CachedData};

    ghost Value = { CachedData };

    ghost coded = { Prim.hlevel (codes, tables.the_row.coded) };

    ghost use Rattle.px_cached.specs.Keeping.{cached_data, IsKept};

    ghost view = { cached_data };

    ghost invariant = { IsKept };
}

impl Cached {
    /// The conditions of a plan, none of which was looked at so far, with these cells and reports as those that were seen:
    /// what is written from now on is to be touched. An error is want of memory.
    pub fn new(
        alloc: Global,
        flat: &Flat,
        cells: &Cells,
        reports: &Reports,
    ) -> Result<Cached, NoMemory>
        requires { length cells.now.contents.values ≡ all_cells (plan_of flat.now) }
        ensures flat { IfOk result (λ made. made.flat ≡ flat.now) }
        ensures seen { IfOk result (λ made. IsSeen made (present_in cells.now reports.now)) }
        ensures few { IfOk result (λ _. all_sources (plan_of flat.now) < 2 ^ 32) }
        ensures owed { IfOk result (λ made. due made ≤ full_cost (plan_of flat.now)) }
    {
        let Some(count) = source_count(flat) else {
            return Err(AllocError);
        };
        let touched = Links::new(alloc, count, 1)?;
        let firsts = first_cells(alloc, flat)?;
        let kept = Kept::of(alloc, flat)?;
        let listeners = listeners(alloc, flat, &kept.network.parts)?;
        listeners.each_once();
        let watches = watches(alloc, flat, &kept.network.parts, &listeners)?;
        Ok(Cached {
            flat: Snapshot::of(flat),
            kept,
            listeners,
            watches,
            touched,
            firsts,
            seen_cells: Snapshot::of(cells),
            seen_reports: Snapshot::of(reports),
        })
    }

    /// From now on the source is touched: the first cell of a variable, a cell of a node, or, numbered behind all cells, what
    /// is reported under a lookup name.
    pub fn touch(&mut self, source: u32)
        requires { source < all_sources (plan_in self.old) }
        ensures { IsTouched self.old self.new source }
    {
        self.touched.push_back_absent(NOTED, source);
    }

    /// From now on the source that has this cell is touched: the variable or the array whose cell it is, or the cell of a
    /// node.
    pub fn touch_cell(&mut self, cell: u32)
        requires { cell < all_cells (plan_in self.old) }
        ensures { HasTouchedCell self.old self.new cell }
    {
        let source = source_of(&self.firsts, cell);
        self.touch(source);
    }

    /// From now on what is reported under a lookup name is touched, as it is read with this tolerance, or with none.
    pub fn touch_report(&mut self, flat: &Flat, lookup: u32, tolerance: Option<u32>)
        requires plan { plan_of flat.now ≡ plan_in self.old }
        requires lookup { lookup < length (lookups_of (plan_in self.old)) }
        requires few { all_sources (plan_in self.old) < 2 ^ 32 }
        ensures { IsTouched self.old self.new (source_number (plan_in self.old) (sources.Reports lookup tolerance)) }
    {
        self.touch(report_source(flat, lookup, tolerance));
    }

    /// From now on all that is reported is touched.
    pub fn touch_reports(&mut self, flat: &Flat)
        requires plan { plan_of flat.now ≡ plan_in self.old }
        requires few { all_sources (plan_in self.old) < 2 ^ 32 }
        ensures { HasTouchedReports self.old self.new }
    {
        let Some(count) = source_count(flat) else {
            return;
        };
        for number in flat.all_cells()..count {
            self.touch(number);
        }
    }

    /// Looks again at what reads a touched source, and at the way up as far as something changes. Each node with a condition
    /// that changed is put behind the others of that list of `changed`, where it is in no list yet. The answer is at how
    /// many parts was looked, or the most that it can say: for each part that reads a touched source one, and one for each
    /// part above it, at most, and what was left. A part that compares two values that are at hand, constants, what cells
    /// hold or what was last reported without arguments or tolerance, is asked first: it isn't looked at where its truth
    /// stays.
    ///
    /// Ok: each condition is kept with its truth in these cells and reports, and nothing is left. `NoMemory`: some
    /// conditions may not be, and are looked at by the next call.
    pub fn refresh(
        &mut self,
        alloc: Global,
        flat: &Flat,
        cells: &Cells,
        reports: &Reports,
        changed: &mut Links,
        list: u32,
    ) -> Result<u32, NoMemory>
        requires plan { plan_of flat.now ≡ plan_in self.old }
        requires cells { length cells.now.contents.values ≡ all_cells (plan_of flat.now) }
        requires seen { IsSeenBut self.old (present_in cells.now reports.now) }
        requires list { list < length changed.old.lists }
        requires nodes { length (plan_of flat.now) ≤ changed.old.cells }
        ensures flat { self.new.flat ≡ self.old.flat }
        ensures seen { IsSeen self.new (present_in cells.now reports.now) }
        ensures looks { IfOk result (λ looks. looks ≤ due self.old) }
        ensures owed { due self.new ≤ due self.old }
        ensures paid { OnOk result (due self.new ≡ 0) }
        ensures fresh { OnOk result (AreFresh self.new (present_in cells.now reports.now)) }
        ensures told { TellsChanged self.old self.new changed.old changed.new list }
    {
        self.see(alloc, flat, cells, reports);
        self.kept
            .refresh(alloc, flat, cells, reports, changed, list)
    }

    // What depends on touched sources is to be looked at, but for what has its truth still, and these cells and reports are
    // those that were seen.
    fn see(&mut self, alloc: Global, flat: &Flat, cells: &Cells, reports: &Reports)
        requires plan { plan_of flat.now ≡ plan_in self.old }
        requires cells { length cells.now.contents.values ≡ all_cells (plan_of flat.now) }
        requires seen { IsSeenBut self.old (present_in cells.now reports.now) }
        ensures flat { self.new.flat ≡ self.old.flat }
        ensures truths { self.new.truths ≡ self.old.truths }
        ensures seen { IsSeen self.new (present_in cells.now reports.now) }
        ensures owed { self.new.left ≤ due self.old }
        ensures paid { (cost : ℕ → ℕ) → in_all cost self.new.touched ≡ 0 }
    {
        let asker = Asker {
            flat,
            cells,
            reports,
            parts: &self.kept.network.parts,
            truths: &self.kept.truths,
        };
        notice(
            alloc,
            &asker,
            &mut self.touched,
            &self.listeners,
            &self.watches,
            &mut self.kept.stale,
        );
        self.seen_cells = Snapshot::of(cells);
        self.seen_reports = Snapshot::of(reports);
    }

    /// The kept truth of a condition; None is UNKNOWN.
    pub fn condition(&self, node: u32, kind: ConditionKind) -> Option<bool>
        requires { node < length (plan_in self.now) }
        ensures { result ≡ kept_truth self.now node kind }
    {
        let root = self.kept.network.roots[8 * node as usize + place_of(kind)];
        root.truth(&self.kept.truths)
    }
}
