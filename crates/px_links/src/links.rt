// Lists of cells by index.
ghost use Rattle.std.specs.Prelude.{◌≡◌, ◌<◌, ℕ, ◌∷◌, length, not, Some, None, IfOk, IfSome, IsSome, IsFalse, IsNone, if◌then◌else◌};
ghost use Rattle.px_links.specs.Links.{empty, pushed, popped, unlinked, first_of, last_of, next_of, rest_of, holder_of, is_absent};
ghost use Rattle.px_links.specs.Links.{HoldsOthersAsBefore, IsOnce, SameCounts};
ghost use Rattle.px_links.specs.Lists.{nth};

use crate::cell::{Cell, Ends, link_last, take_out};
use px_value::NoMemory;
use std::alloc::Global;
use std::marker::Model;

/// Lists of cells, both by number; a cell is in at most one list. Calls take numbers below the counts that `new` was
/// given, and those counts stay. No call but `new` takes memory or walks a list.
#[derive(Drop)]
pub struct Links {
    cells: Vec<Cell>,
    ends: Vec<Ends>,
}

impl Model for Links {
    ghost use Rattle.px_links.specs.Links.{LinksData};

    ghost Value = { LinksData };

    ghost use Rattle.px_links.specs.Keeping.{links_data, IsKept};

    ghost view = { links_data };

    ghost invariant = { IsKept };
}

impl Links {
    /// So many cells, and so many lists, all of them empty. An error is want of memory.
    pub fn new(alloc: Global, cells: u32, lists: u32) -> Result<Links, NoMemory>
        ensures made { IfOk result (λ made. made ≡ empty cells lists) }
        ensures holders { IfOk result (λ made. (cell : ℕ) → holder_of made cell ≡ None) }
    {
        Ok(Links {
            cells: vec![in alloc; Cell::ABSENT; cells as usize]?,
            ends: vec![in alloc; Ends::EMPTY; lists as usize]?,
        })
    }

    /// Puts a cell behind the others of a list. False exactly where some list has it, and then nothing changes.
    pub fn push_back_absent(&mut self, list: u32, cell: u32) -> bool
        requires list { list < length self.old.lists }
        requires cell { cell < self.old.cells }
        ensures answer { result ≡ is_absent self.old cell }
        ensures links { self.new
            ≡ (if is_absent self.old cell then pushed self.old list cell else self.old) }
        ensures holders { HoldsOthersAsBefore self.old self.new cell
            (if is_absent self.old cell then Some list else holder_of self.old cell) }
        ensures counts { SameCounts self.old self.new }
    {
        if self.holds(cell).is_some() {
            return false;
        }
        link_last(&mut self.cells, &mut self.ends, list, cell);
        true
    }

    /// Takes the first cell of a list out of it. None exactly where the list is empty, and then nothing changes.
    pub fn pop_front(&mut self, list: u32) -> Option<u32>
        requires { list < length self.old.lists }
        ensures answer { result ≡ first_of self.old list }
        ensures within { IfSome result (λ cell. cell < self.old.cells) }
        ensures links { self.new ≡ popped self.old list }
        ensures holders { IfSome result (λ cell. HoldsOthersAsBefore self.old self.new cell None) }
        ensures same { IsNone result → self.new ≡ self.old }
        ensures counts { SameCounts self.old self.new }
    {
        let first = self.first(list)?;
        take_out(&mut self.cells, &mut self.ends, list, first);
        Some(first)
    }

    /// Takes a cell out of its list. False exactly where no list has it, and then nothing changes.
    pub fn unlink(&mut self, cell: u32) -> bool
        requires { cell < self.old.cells }
        ensures answer { result ≡ not (is_absent self.old cell) }
        ensures links { self.new ≡ unlinked self.old cell }
        ensures holders { HoldsOthersAsBefore self.old self.new cell None }
        ensures same { IsFalse result → self.new ≡ self.old }
        ensures counts { SameCounts self.old self.new }
    {
        match self.holds(cell) {
            Some(list) => {
                take_out(&mut self.cells, &mut self.ends, list, cell);
                true
            }
            None => false,
        }
    }

    /// The first cell of a list; None exactly where the list is empty.
    pub fn first(&self, list: u32) -> Option<u32>
        requires { list < length self.now.lists }
        ensures answer { result ≡ first_of self.now list }
        ensures within { IfSome result (λ cell. cell < self.now.cells) }
        ensures holder { IfSome result (λ cell. holder_of self.now cell ≡ Some list) }
        ensures walk { rest_of self.now result ≡ nth self.now.lists list }
    {
        self.ends[list as usize].first
    }

    /// The last cell of a list; None exactly where the list is empty.
    pub fn last(&self, list: u32) -> Option<u32>
        requires { list < length self.now.lists }
        ensures answer { result ≡ last_of self.now list }
        ensures within { IfSome result (λ cell. cell < self.now.cells) }
        ensures holder { IfSome result (λ cell. holder_of self.now cell ≡ Some list) }
    {
        self.ends[list as usize].last
    }

    /// The cell behind this one in its list; None exactly where it is the last, or in no list.
    pub fn next(&self, cell: u32) -> Option<u32>
        requires { cell < self.now.cells }
        ensures answer { result ≡ next_of self.now cell }
        ensures within { IfSome result (λ other. other < self.now.cells) }
        ensures holder { IfSome result (λ other. holder_of self.now other ≡ holder_of self.now cell) }
        ensures walk { IsSome (holder_of self.now cell)
            → rest_of self.now (Some cell) ≡ cell ∷ rest_of self.now result }
    {
        self.cells[cell as usize].next
    }

    /// The list that has the cell; None exactly where no list has it.
    pub fn holds(&self, cell: u32) -> Option<u32>
        requires { cell < self.now.cells }
        ensures answer { result ≡ holder_of self.now cell }
        ensures within { IfSome result (λ list. list < length self.now.lists) }
    {
        self.cells[cell as usize].holder
    }

    /// A law: each cell of a list is one of the table's, and no cell is twice in a list or in two lists.
    pub fn each_once(&self)
        ensures { IsOnce self.now }
    {
        // What every table keeps is known of its fields.
        let _ = &self.cells;
    }
}
