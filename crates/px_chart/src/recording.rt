// What is kept of a run: its rows and its columns.
use crate::columns::{Column, title_of};
use crate::labels::event_label;
use crate::layout::{indent, slots_of, text_width};
use crate::paths::{last_name, paths_of};
use crate::rows::Row;
use indexmap::IndexMap;
use px_core::Plan;
use px_event::Entry;
use px_pen::Pen;
use px_sem::Move;
use px_value::{NoMemory, Path, PathFault};
use std::alloc::Global;

/// The least slots of a column, so that its head has room.
const LEAST_SLOTS: u32 = 3;

/// After how many slots the nodes' names stand again.
const NAMES_EVERY: u32 = 120;

/// A run, slot by slot: each micro step has one, and each column ends with one for the quiet world. Where memory runs out,
/// that is noted, and what is made of the recording asks for it.
#[derive(Drop)]
pub struct Recording {
    alloc: Global,
    /// The rows by the paths of their nodes.
    pub rows: IndexMap<Path, Row>,
    pub columns: Vec<Column>,
    /// The slots where the names stand again. Nothing happens in those that they take.
    pub again: Vec<u32>,
    /// The width of the widest name.
    name: u32,
    /// The width of the widest name with what stands before it.
    pub names: u32,
    /// The width of the widest label, which is its height at the head of a column.
    pub labels: u32,
    /// The first slot of the column that is under way.
    begin: u32,
    /// The slot of the next step.
    pub slot: u32,
    pub has_failed: bool,
}

impl Recording {
    /// A recording of a plan without nodes, which did nothing yet.
    pub fn new(alloc: Global) -> Recording {
        Recording {
            alloc,
            rows: IndexMap::new(alloc),
            columns: Vec::new(alloc),
            again: Vec::new(alloc),
            name: 0,
            names: 0,
            labels: 0,
            begin: 0,
            slot: 0,
            has_failed: false,
        }
    }

    /// Adds a row for each node of a plan, each before those below it.
    pub fn add_rows(&mut self, plan: &Plan) -> Result<(), NoMemory> {
        let nodes = paths_of(self.alloc, plan)?;
        for node in &nodes {
            self.add_row(node.path.as_str(), node.depth);
        }
        Ok(())
    }

    fn add_row(&mut self, path: &str, depth: usize) {
        let width = text_width(last_name(path));
        self.name = self.name.max(width);
        self.names = self.names.max(indent(depth).saturating_add(width));
        match Path::new(self.alloc, path) {
            Ok(path) => self.put_row(path, Row::of(self.alloc, depth)),
            Err(PathFault::NotAPath) => {}
            Err(PathFault::NoMemory) => self.has_failed = true,
        }
    }

    fn put_row(&mut self, path: Path, row: Row) {
        if self.rows.insert(path, row).is_err() {
            self.has_failed = true;
        }
    }

    /// Keeps a micro step.
    pub fn step(&mut self, moves: &[Move]) {
        for moved in moves {
            self.keep(moved);
        }
        self.slot = self.slot.saturating_add(1);
    }

    fn keep(&mut self, moved: &Move) {
        if let Some(row) = self.rows.get_mut(&moved.node) {
            if row.keep(self.alloc, self.slot, moved).is_err() {
                self.has_failed = true;
            }
        }
    }

    /// Ends the column of the start.
    pub fn end_start(&mut self) {
        let mut label = Pen::new(self.alloc);
        label.push("start");
        let mut title = Pen::new(self.alloc);
        title.push("event 0: start");
        self.end_column(label, title, None);
    }

    /// Ends the column of an entry, which was refused for this reason, or accepted.
    pub fn end_entry(&mut self, entry: &Entry, refused: Option<&'static str>) {
        let label = event_label(self.alloc, &entry.event);
        let title = title_of(self.alloc, entry, refused);
        self.end_column(label, title, refused);
    }

    fn end_column(&mut self, label: Pen, title: Pen, refused: Option<&'static str>) {
        if self.add_column(label, title, refused).is_err() {
            self.has_failed = true;
        }
        let least = self.begin.saturating_add(LEAST_SLOTS);
        self.slot = self.slot.saturating_add(1).max(least);
        self.leave_room();
        self.begin = self.slot;
    }

    fn add_column(
        &mut self,
        label: Pen,
        title: Pen,
        refused: Option<&'static str>,
    ) -> Result<(), NoMemory> {
        let label = label.written()?;
        let title = title.written()?;
        self.labels = self.labels.max(text_width(label.as_str()));
        self.columns.push(Column {
            begin: self.begin,
            label,
            title,
            refused,
        })?;
        Ok(())
    }

    // Leaves room for the names, where they last stood far to the left.
    fn leave_room(&mut self) {
        let last = self.again.last().copied().unwrap_or(0);
        if self.slot.saturating_sub(last) >= NAMES_EVERY {
            if self.again.push(self.slot).is_err() {
                self.has_failed = true;
            }
            self.slot = self.slot.saturating_add(slots_of(self.name));
        }
    }
}
