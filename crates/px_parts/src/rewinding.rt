// Back to before the start, in the memory that there is.
ghost use Rattle.std.specs.Prelude.{◌≡◌, ◌+◌, ◌<◌, [], length, IsNone};
ghost use Rattle.px_flat.specs.Flat.{plan_of};
ghost use Rattle.px_flat.specs.Layout.{variable_cells, node_cell, all_cells};
ghost use Rattle.px_parts.specs.Fresh.{first_cells, AreFreshUpTo};
ghost use Rattle.px_parts.specs.Marks.{AreUnmarked};
ghost use Rattle.px_parts.specs.Parts.{AreStanding, plan_in, world_in};
ghost use Rattle.px_parts.specs.Seen.{AreSeenAsBefore};
ghost use Rattle.px_sem.specs.World.{initial_world};

use crate::parts::Parts;
use px_cells::Cells;
use px_flat::Flat;
use px_value::{NodeState, Value};

// Makes the cells of the variables those of a plan that has not begun: UNKNOWN.
fn refresh_variables(cells: &mut Cells, flat: &Flat)
    requires { AreFreshUpTo (plan_of flat.now) 0 cells.old.contents }
    ensures fresh { AreFreshUpTo (plan_of flat.now) (variable_cells (plan_of flat.now)) cells.new.contents }
    ensures seen { cells.new.seen ≡ cells.old.seen }
{
    for cell in 0..flat.variable_cells() {
        cells.overwrite(cell, Value::Unknown);
    }
}

// The same for a node's: INACTIVE, without outcome, failure and handle, and not acknowledged.
fn refresh_node(cells: &mut Cells, flat: &Flat, node: u32)
    requires within { node < length (plan_of flat.now) }
    requires before { AreFreshUpTo (plan_of flat.now) (node_cell (plan_of flat.now) node) cells.old.contents }
    ensures fresh { AreFreshUpTo (plan_of flat.now) (node_cell (plan_of flat.now) (node + 1)) cells.new.contents }
    ensures seen { cells.new.seen ≡ cells.old.seen }
{
    cells.overwrite(flat.state_cell(node), Value::State(NodeState::Inactive));
    cells.overwrite(flat.outcome_cell(node), Value::Unknown);
    cells.overwrite(flat.failure_cell(node), Value::Unknown);
    cells.overwrite(flat.handle_cell(node), Value::Unknown);
    cells.overwrite(flat.acknowledgement_cell(node), Value::Boolean(false));
}

// The same for all cells.
fn refresh(cells: &mut Cells, flat: &Flat)
    requires long { length cells.old.contents.values ≡ all_cells (plan_of flat.now) }
    requires unmarked { IsNone cells.old.contents.marked }
    ensures values { cells.new.contents.values ≡ first_cells (plan_of flat.now) }
    ensures unmarked { IsNone cells.new.contents.marked }
    ensures seen { cells.new.seen ≡ cells.old.seen }
{
    refresh_variables(cells, flat);
    for node in 0..flat.nodes() {
        refresh_node(cells, flat, node);
    }
}

impl Parts {
    /// Goes back to before the start: no node has begun, nothing was reported, and there are no moves. What was
    /// last seen stays: what is no longer so is news. It takes no memory.
    pub fn rewind(&mut self)
        requires stand { AreStanding self.old }
        requires unmarked { AreUnmarked self.old }
        ensures plan { plan_in self.new ≡ plan_in self.old }
        ensures world { world_in self.new ≡ initial_world (plan_in self.old) }
        ensures stand { AreStanding self.new }
        ensures unmarked { AreUnmarked self.new }
        ensures seen { AreSeenAsBefore self.old self.new }
        ensures moves { self.new.moves.items ≡ [] }
    {
        refresh(&mut self.cells, &self.flat);
        self.reports.clear();
        self.actions.clear();
        self.moves.clear();
    }
}
