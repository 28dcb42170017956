// From a variable's cell to its first.
ghost use Rattle.std.specs.Prelude.{◌≡◌, ◌+◌, ◌<◌, ◌^◌, ◌++◌, length, map, replicate, slice_get, sum, IfOk, OnOk};
ghost use Rattle.std.specs.Option.{unwrap_or};
ghost use Rattle.px_core.specs.Fit.{cells_of};
ghost use Rattle.px_core.specs.Plan.{variable_data};
ghost use Rattle.px_flat.specs.Flat.{plan_of};
ghost use Rattle.px_cached.specs.Firsts.{firsts_from, firsts_of};

use px_core::Variable;
use px_flat::Flat;
use px_value::NoMemory;
use std::alloc::Global;

// The cells of a variable, which stand behind those before.
fn push_cells(firsts: &mut Vec<u32>, cells: u32) -> Result<(), NoMemory>
    requires { length firsts.old.items < 2 ^ 32 }
    ensures { OnOk result (firsts.new.items
        ≡ firsts.old.items ++ replicate cells (length firsts.old.items)) }
{
    let first = firsts.len() as u32;
    for _ in 0..cells {
        firsts.push(first)?;
    }
    Ok(())
}

// The cells of a node's variables.
fn push_variables(firsts: &mut Vec<u32>, variables: &[Variable]) -> Result<(), NoMemory>
    requires { length firsts.old.items + sum (map cells_of (map variable_data variables.now)) < 2 ^ 32 }
    ensures { OnOk result (firsts.new.items ≡ firsts.old.items
        ++ firsts_from (length firsts.old.items) (map variable_data variables.now)) }
{
    for variable in variables {
        push_cells(firsts, variable.size.unwrap_or(1))?;
    }
    Ok(())
}

/// The first cell of the variable of each variable cell.
pub(crate) fn first_cells(alloc: Global, flat: &Flat) -> Result<Vec<u32>, NoMemory>
    ensures { IfOk result (λ firsts. firsts.items ≡ firsts_of (plan_of flat.now)) }
{
    let mut firsts = Vec::with_capacity(alloc, flat.variable_cells() as usize)?;
    for node in 0..flat.nodes() {
        push_variables(&mut firsts, &flat.row(node).head.variables)?;
    }
    Ok(firsts)
}

/// The source of a cell, by its first cell. Each cell of a node is its own.
pub(crate) fn source_of(firsts: &[u32], cell: u32) -> u32
    ensures { result ≡ unwrap_or (slice_get firsts.now cell) cell }
{
    firsts.get(cell as usize).copied().unwrap_or(cell)
}
