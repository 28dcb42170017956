// Which variable cells and which nodes belong to each node.
ghost use Rattle.std.specs.Prelude.{◌≡◌, ℕ, ◌<◌, ◌≤◌, length, map, sum, slice_index, IfOk};
ghost use Rattle.px_core.specs.Fit.{cells_of};
ghost use Rattle.px_core.specs.Plan.{variable_data};
ghost use Rattle.px_flat.specs.Extents.{AreExtents};
ghost use Rattle.px_flat.specs.Layout.{variable_cells};
ghost use Rattle.px_flat.specs.Row.{after_last};
ghost use Rattle.px_flat.specs.Rows.{IsLaid, sites_of};

use crate::row::{Extent, Row};
use px_core::Variable;
use px_value::NoMemory;
use std::alloc::Global;

fn cells_of(variables: &[Variable]) -> u32
    requires { sum (map cells_of (map variable_data variables.now)) ≤ 131072 }
    ensures { result ≡ sum (map cells_of (map variable_data variables.now)) }
{
    let mut cells = 0;
    for variable in variables {
        cells += variable.size.unwrap_or(1);
    }
    cells
}

/// The extent of each row, where these are the numbers after their last descendants.
pub fn extents(alloc: Global, rows: &[Row], ends: &[u32]) -> Result<Vec<Extent>, NoMemory>
    requires laid { IsLaid rows.now }
    requires cells { variable_cells (sites_of rows.now) ≤ 131072 }
    requires long { length ends.now ≡ length rows.now }
    requires ends { (i : ℕ) → i < length rows.now → slice_index ends.now i ≡ after_last (sites_of rows.now) i }
    ensures { IfOk result (λ extents. AreExtents (sites_of rows.now) extents.items) }
{
    let mut extents = Vec::with_capacity(alloc, rows.len())?;
    let mut first_cell = 0;
    for i in 0..rows.len() {
        let cells = cells_of(&rows[i].head.variables);
        extents.push(Extent {
            first_cell,
            cells,
            end: ends[i],
        })?;
        first_cell += cells;
    }
    Ok(extents)
}
