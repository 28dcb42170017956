// The parts of a plan that has not begun.
ghost use Rattle.std.specs.Prelude.{◌≡◌, ◌++◌, [], replicate, IfOk, OnOk};
ghost use Rattle.px_value.specs.declared.value.Value.TheVariants as values;
ghost use Rattle.px_core.specs.Fit.{IsFit};
ghost use Rattle.px_core.specs.Plan.{tree_of, sites};
ghost use Rattle.px_sem.specs.World.{initial_world};
ghost use Rattle.px_flat.specs.Flat.{plan_of};
ghost use Rattle.px_parts.specs.Fresh.{at_rest, first_cells};
ghost use Rattle.px_parts.specs.Marks.{AreUnmarked};
ghost use Rattle.px_parts.specs.Parts.{AreStanding, plan_in, world_in};
ghost use Rattle.px_parts.specs.Seen.{AreAllSeen};

use crate::parts::Parts;
use px_cells::Cells;
use px_command::Actions;
use px_core::Plan;
use px_flat::{Flat, flatten};
use px_lookup::Reports;
use px_value::{NoMemory, NodeState, Value};
use std::alloc::Global;

// The cells of a plan that has not begun: UNKNOWN variables, and nodes of which nothing is so.
fn first_cells(alloc: Global, flat: &Flat) -> Result<Vec<Value>, NoMemory>
    ensures { IfOk result (λ cells. cells.items ≡ first_cells (plan_of flat.now)) }
{
    let mut cells = Vec::with_capacity(alloc, flat.all_cells() as usize)?;
    push_variables(&mut cells, flat.variable_cells())?;
    for _ in 0..flat.nodes() {
        push_node(&mut cells)?;
    }
    Ok(cells)
}

fn push_variables(cells: &mut Vec<Value>, count: u32) -> Result<(), NoMemory>
    ensures { OnOk result (cells.new.items ≡ cells.old.items ++ replicate count values.Unknown) }
{
    for _ in 0..count {
        cells.push(Value::Unknown)?;
    }
    Ok(())
}

// A node that is INACTIVE, without outcome, failure and handle, and not acknowledged.
fn push_node(cells: &mut Vec<Value>) -> Result<(), NoMemory>
    ensures { OnOk result (cells.new.items ≡ cells.old.items ++ at_rest) }
{
    cells.push(Value::State(NodeState::Inactive))?;
    cells.push(Value::Unknown)?;
    cells.push(Value::Unknown)?;
    cells.push(Value::Unknown)?;
    cells.push(Value::Boolean(false))?;
    Ok(())
}

impl Parts {
    /// The parts of a plan of which no node has begun. Nothing was reported, no mark stands, and all is seen.
    pub fn fresh(alloc: Global, plan: &Plan) -> Result<Parts, NoMemory>
        requires { IsFit (tree_of plan.now) }
        ensures plan { IfOk result (λ parts. plan_in parts ≡ sites (tree_of plan.now)) }
        ensures world { IfOk result (λ parts. world_in parts ≡ initial_world (plan_in parts)) }
        ensures stand { IfOk result AreStanding }
        ensures unmarked { IfOk result AreUnmarked }
        ensures seen { IfOk result AreAllSeen }
        ensures moves { IfOk result (λ parts. parts.moves.items ≡ []) }
    {
        let flat = flatten(alloc, plan)?;
        let values = first_cells(alloc, &flat)?;
        let tolerances = Vec::from_slice(alloc, flat.tolerances())?;
        Ok(Parts {
            actions: Actions::new(alloc, &flat)?,
            cells: Cells::new(alloc, values)?,
            reports: Reports::new(alloc, tolerances),
            moves: Vec::new(alloc),
            flat,
        })
    }
}
