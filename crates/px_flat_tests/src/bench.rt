// A plan, the cells and reports of what runs it, and its conditions as they are kept.
ghost use Rattle.std.specs.Prelude.{◌≡◌, ◌<◌, ◌≤◌, ◌^◌, length, IfOk, IsNone, None};
ghost use Rattle.px_cells.specs.Marked.{written};
ghost use Rattle.px_flat.specs.Flat.{plan_of};
ghost use Rattle.px_flat.specs.Layout.{all_cells};
ghost use Rattle.px_flat.specs.Lookups.{lookups_of};
ghost use Rattle.px_flat.specs.NumberedData.{expr_data};
ghost use Rattle.px_flat.specs.Within.{IsWithin};
ghost use Rattle.px_cached.specs.Cached.{IsSeen, IsSeenBut, plan_in, present_in};
ghost use Rattle.px_cached.specs.Conditions.{all_sources};

use crate::contest::node_at;
use crate::tables::tables;
use anyhow::bail;
use px_cached::Cached;
use px_cells::Cells;
use px_core::ConditionKind;
use px_eval::value_of;
use px_event::{Event, Values};
use px_flat::{Flat, NumberedExpr};
use px_links::Links;
use px_lookup::Reports;
use px_value::{NoMemory, Value};
use std::alloc::Global;
use std::marker::Model;

const KINDS: [ConditionKind; 8] = [
    ConditionKind::Start,
    ConditionKind::End,
    ConditionKind::Exit,
    ConditionKind::Skip,
    ConditionKind::Repeat,
    ConditionKind::Pre,
    ConditionKind::Post,
    ConditionKind::Invariant,
];

/// A plan's tables, the cells and reports of what runs it, and its conditions as they are kept. Whatever changes is
/// touched. To contracts it is the number of the plan's nodes.
#[derive(Drop)]
pub(crate) struct Bench {
    flat: Flat,
    cells: Cells,
    reports: Reports,
    conditions: Cached,
}

impl Model for Bench {
    ghost use Rattle.std.specs.Prelude.{ℕ, length};
    ghost use Rattle.px_flat.specs.Flat.{plan_of};

    ghost Value = { ℕ };

    ghost use Rattle.px_flat_tests.specs.Bench.{IsStanding};

    ghost view = { λ b. length (plan_of b.flat) };

    ghost invariant = { IsStanding };
}

/// What came of a look at what was touched.
#[derive(Drop)]
pub(crate) struct Refreshed {
    /// The paths of the nodes with a condition that changed, in preorder, with blanks between them.
    told: String,
    /// At how many parts of conditions was looked.
    looks: u32,
}

impl Refreshed {
    // What came of so many looks, where this list has the nodes that were told.
    fn of(
        alloc: Global,
        flat: &Flat,
        changed: &Links,
        looks: Result<u32, NoMemory>,
    ) -> anyhow::Result<Refreshed>
        requires { length (plan_of flat.now) ≤ changed.now.cells }
    {
        let looks = looks?;
        let told = paths_of(alloc, flat, changed)?;
        Ok(Refreshed { told, looks })
    }

    /// What came of it where it isn't that these nodes were told after so many looks.
    pub(crate) fn other_than(
        &self,
        alloc: Global,
        told: &str,
        looks: u32,
    ) -> Result<Option<String>, NoMemory> {
        if self.told.as_str() == told && self.looks == looks {
            return Ok(None);
        }
        let words = format!(in alloc; "{} looks, and told are: {}", self.looks, self.told)?;
        Ok(Some(words))
    }
}

// So many cells, all UNKNOWN.
fn unknown(alloc: Global, count: u32) -> Result<Cells, NoMemory>
    ensures sized { IfOk result (λ cells. length cells.contents.values ≡ count) }
    ensures unmarked { IfOk result (λ cells. cells.contents.marked ≡ None) }
{
    let mut values = Vec::with_capacity(alloc, count as usize)?;
    for _ in 0..count {
        values.push(Value::Unknown)?;
    }
    Cells::new(alloc, values)
}

// Writes a cell, and touches the source that has it: each source that isn't touched is still as it was seen.
fn write(cells: &mut Cells, reports: &Reports, conditions: &mut Cached, cell: u32, value: Value)
    requires sized { length cells.old.contents.values ≡ all_cells (plan_in conditions.old) }
    requires cell { cell < all_cells (plan_in conditions.old) }
    requires unmarked { cells.old.contents.marked ≡ None }
    requires seen { IsSeenBut conditions.old (present_in cells.old reports.now) }
    ensures cells { cells.new.contents ≡ written cells.old.contents cell value }
    ensures plan { conditions.new.flat ≡ conditions.old.flat }
    ensures seen { IsSeenBut conditions.new (present_in cells.new reports.now) }
{
    cells.overwrite(cell, value);
    conditions.touch_cell(cell);
}

// A condition of a node.
fn condition(flat: &Flat, node: u32, kind: ConditionKind) -> &NumberedExpr
    requires { node < length (plan_of flat.now) }
    ensures { IsWithin (plan_of flat.now) (expr_data result.now) }
{
    let conditions = &flat.node(node).conditions;
    match kind {
        ConditionKind::Start => &conditions.start,
        ConditionKind::End => &conditions.end,
        ConditionKind::Exit => &conditions.exit,
        ConditionKind::Skip => &conditions.skip,
        ConditionKind::Repeat => &conditions.repeat,
        ConditionKind::Pre => &conditions.pre,
        ConditionKind::Post => &conditions.post,
        ConditionKind::Invariant => &conditions.invariant,
    }
}

// The paths of the nodes that some list has.
fn paths_of(alloc: Global, flat: &Flat, links: &Links) -> anyhow::Result<String>
    requires { length (plan_of flat.now) ≤ links.now.cells }
{
    let mut paths = String::new(alloc);
    for node in 0..flat.nodes() {
        if links.holds(node).is_some() {
            if !paths.is_empty() {
                paths.push_str(" ")?;
            }
            paths.push_str(flat.row(node).path.as_str())?;
        }
    }
    Ok(paths)
}

// What runs a plan, before anything ran: all cells are UNKNOWN, nothing is reported, and no condition was looked at.
struct Fresh {
    cells: Cells,
    reports: Reports,
    conditions: Cached,
}

impl Fresh {
    fn of(alloc: Global, flat: &Flat) -> Result<Fresh, NoMemory>
        ensures plan { IfOk result (λ fresh. plan_in fresh.conditions ≡ plan_of flat.now) }
        ensures sized { IfOk result (λ fresh. length fresh.cells.contents.values ≡ all_cells (plan_of flat.now)) }
        ensures unmarked { IfOk result (λ fresh. fresh.cells.contents.marked ≡ None) }
        ensures seen { IfOk result (λ fresh. IsSeen fresh.conditions (present_in fresh.cells fresh.reports)) }
        ensures few { IfOk result (λ _. all_sources (plan_of flat.now) < 2 ^ 32) }
    {
        let cells = unknown(alloc, flat.all_cells())?;
        let reports = Reports::new(alloc, Vec::new(alloc));
        match Cached::new(alloc, flat, &cells, &reports) {
            Ok(conditions) => Ok(Fresh {
                cells,
                reports,
                conditions,
            }),
            Err(fault) => {
                drop(cells);
                drop(reports);
                Err(fault)
            }
        }
    }
}

// The report of a truth of a plan's first lookup name.
fn report_of(alloc: Global, flat: &Flat, truth: bool) -> Result<Event, NoMemory>
    requires { 0 < length (lookups_of (plan_of flat.now)) }
{
    let name = flat.lookup_name(0).copy(alloc)?;
    Ok(Event::Report {
        name,
        args: Values::from(Vec::new(alloc)),
        value: Value::Boolean(truth),
    })
}

impl Bench {
    /// The plan that a text spells. All its cells are UNKNOWN, nothing is reported, and no condition was looked at.
    pub(crate) fn of(alloc: Global, text: &str) -> anyhow::Result<Bench> {
        let flat = tables(alloc, text)?;
        match Fresh::of(alloc, &flat) {
            Ok(
                Fresh {
                    cells,
                    reports,
                    conditions,
                },
            ) => Ok(Bench {
                flat,
                cells,
                reports,
                conditions,
            }),
            Err(fault) => {
                drop(flat);
                Err(fault.into())
            }
        }
    }

    /// How many nodes the plan has.
    pub(crate) fn nodes(&self) -> u32
        ensures { result ≡ self.now }
    {
        self.flat.nodes()
    }

    /// The number of the node at a path.
    pub(crate) fn node(&self, alloc: Global, path: &str) -> anyhow::Result<u32>
        ensures { IfOk result (λ node. node < self.now) }
    {
        node_at(alloc, &self.flat, path)
    }

    pub(crate) fn state_cell(&self, node: u32) -> u32
        requires { node < self.now }
    {
        self.flat.state_cell(node)
    }

    pub(crate) fn outcome_cell(&self, node: u32) -> u32
        requires { node < self.now }
    {
        self.flat.outcome_cell(node)
    }

    pub(crate) fn handle_cell(&self, node: u32) -> u32
        requires { node < self.now }
    {
        self.flat.handle_cell(node)
    }

    /// Writes a cell.
    pub(crate) fn set(&mut self, cell: u32, value: Value) -> anyhow::Result<()>
        ensures { self.new ≡ self.old }
    {
        if self.flat.all_cells() <= cell {
            bail!("no cell: {cell}");
        }
        write(
            &mut self.cells,
            &self.reports,
            &mut self.conditions,
            cell,
            value,
        );
        Ok(())
    }

    /// Reports a truth of the one name that the plan looks up.
    pub(crate) fn report(&mut self, alloc: Global, truth: bool) -> anyhow::Result<()>
        ensures { self.new ≡ self.old }
    {
        if self.flat.lookups() != 1 {
            bail!("the plan looks up no name, or several");
        }
        let event = report_of(alloc, &self.flat, truth)?;
        self.conditions.touch_reports(&self.flat);
        let taken = self.reports.take(alloc, &event);
        drop(event);
        Ok(taken?)
    }

    /// Looks again at the conditions that may have changed.
    pub(crate) fn refresh(&mut self, alloc: Global) -> anyhow::Result<Refreshed>
        ensures { self.new ≡ self.old }
    {
        let mut changed = Links::new(alloc, self.flat.nodes(), 1)?;
        let looks = self.conditions.refresh(
            alloc,
            &self.flat,
            &self.cells,
            &self.reports,
            &mut changed,
            0,
        );
        let refreshed = Refreshed::of(alloc, &self.flat, &changed, looks);
        drop(changed);
        refreshed
    }

    /// The first condition that is kept otherwise than it is made from scratch, if there is one.
    pub(crate) fn unlike(&self, alloc: Global) -> anyhow::Result<Option<String>> {
        for node in 0..self.flat.nodes() {
            for kind in KINDS {
                let unlike = self.unlike_at(alloc, node, kind)?;
                if unlike.is_some() {
                    return Ok(unlike);
                }
            }
        }
        Ok(None)
    }

    // How a condition is kept otherwise than it is made from scratch, if it is.
    fn unlike_at(
        &self,
        alloc: Global,
        node: u32,
        kind: ConditionKind,
    ) -> anyhow::Result<Option<String>>
        requires { node < self.now }
    {
        let expr = condition(&self.flat, node, kind);
        let made = value_of(alloc, &self.flat, &self.cells, &self.reports, expr)?;
        let kept = match self.conditions.condition(node, kind) {
            Some(truth) => Value::Boolean(truth),
            None => Value::Unknown,
        };
        let unlike = if kept == made {
            Ok(None)
        } else {
            told(alloc, &self.flat, node, kind, &kept, &made)
        };
        drop(kept);
        drop(made);
        Ok(unlike?)
    }
}

// Which condition is kept as one value and made as another.
fn told(
    alloc: Global,
    flat: &Flat,
    node: u32,
    kind: ConditionKind,
    kept: &Value,
    made: &Value,
) -> Result<Option<String>, NoMemory>
    requires { node < length (plan_of flat.now) }
{
    let path = flat.row(node).path.as_str();
    let told = format!(in alloc; "{kind:?} of {path} is kept as {kept:?} and made as {made:?}")?;
    Ok(Some(told))
}
