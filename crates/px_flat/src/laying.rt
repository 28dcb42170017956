// Lays a plan's nodes out in preorder.
ghost use Rattle.std.specs.Prelude.{◌≡◌, ◌+◌, ◌<◌, ◌≤◌, ◌++◌, ◌^◌, length, map, Some, IsTrue, IfOk, OnOk};
ghost use Rattle.std.specs.List.{list_all};
ghost use Rattle.px_core.specs.declared.node.CoreNode.TheViews.{out-CoreNode};
ghost use Rattle.px_core.specs.Fit.{IsFit, has_short_path};
ghost use Rattle.px_core.specs.Plan.{variable_data, head_of, count_of, sites_under, tree_of, sites, below_it};
ghost use Rattle.px_value.specs.Name.{is_name};
ghost use Rattle.px_flat.specs.Row.{head_data};
ghost use Rattle.px_flat.specs.Rows.{IsLaid, IsLinked, IsNamed, sites_of, above_in, path_at};
ghost use Rattle.px_flat.specs.Laying.{IsRowAt, IsRootRow, IsRowUnder};

use crate::row::{Head, Row};
use px_core::{CoreNode, Plan, Variable};
use px_value::{NoMemory, Path};
use std::alloc::Global;
use std::snapshot::Snapshot;

fn copy_each(alloc: Global, variables: &[Variable]) -> Result<Vec<Variable>, NoMemory>
    ensures { IfOk result (λ copies. map variable_data copies.items ≡ map variable_data variables.now) }
{
    let mut copies = Vec::with_capacity(alloc, variables.len())?;
    for variable in variables {
        copies.push(variable.copy(alloc)?)?;
    }
    Ok(copies)
}

fn head_at(alloc: Global, node: &CoreNode) -> Result<Head, NoMemory>
    ensures head { IfOk result (λ head. head_data head ≡ head_of (out-CoreNode node.now)) }
    ensures named { IfOk result (λ head. IsTrue (is_name head.name)) }
{
    Ok(Head {
        name: node.name.copy(alloc)?,
        kind: node.kind,
        conditions: Snapshot::of(&node.conditions),
        priority: node.priority,
        variables: copy_each(alloc, &node.variables)?,
        body: node.body.copy(alloc)?,
    })
}

fn row_at(alloc: Global, node: &CoreNode, path: Path, parent: Option<u32>) -> Result<Row, NoMemory>
    ensures { IfOk result (IsRowAt (out-CoreNode node.now) path parent) }
{
    Ok(Row {
        path,
        parent,
        head: head_at(alloc, node)?,
    })
}

fn row_of_root(alloc: Global, root: &CoreNode) -> Result<Row, NoMemory>
    ensures { IfOk result (IsRootRow root.now) }
{
    row_at(alloc, root, Path::root(alloc, &root.name)?, None)
}

fn row_under(alloc: Global, node: &CoreNode, parent: usize, rows: &[Row]) -> Result<Row, NoMemory>
    requires parent { parent < length rows.now }
    requires few { parent < 2 ^ 32 }
    requires linked { IsLinked rows.now }
    requires short { length (path_at rows.now parent) + length (out-CoreNode node.now).name < 5000 }
    ensures { IfOk result (IsRowUnder rows.now parent node.now) }
{
    row_at(
        alloc,
        node,
        rows[parent].path.child(alloc, &node.name)?,
        Some(parent as u32),
    )
}

// Lays all that is below a node, which stands at this number.
fn lay_below(
    alloc: Global,
    node: &CoreNode,
    number: usize,
    rows: &mut Vec<Row>,
) -> Result<(), NoMemory>
    requires number { number < length rows.old.items }
    requires few { length rows.old.items + count_of (below_it node.now) ≤ 4096 }
    requires short { IsTrue (list_all has_short_path
        (sites_under (above_in (sites_of rows.old.items) (Some number)) (below_it node.now))) }
    requires linked { IsLinked rows.old.items }
    requires named { IsNamed rows.old.items }
    ensures sites { OnOk result (sites_of rows.new.items ≡ sites_of rows.old.items
        ++ sites_under (above_in (sites_of rows.old.items) (Some number)) (below_it node.now)) }
    ensures linked { OnOk result (IsLinked rows.new.items) }
    ensures named { OnOk result (IsNamed rows.new.items) }
{
    for child in &node.children {
        let next = rows.len();
        let row = row_under(alloc, child, number, rows)?;
        rows.push(row)?;
        lay_below(alloc, child, next, rows)?;
    }
    Ok(())
}

/// The plan's nodes in preorder, each in its row, with room for so many.
pub fn lay(alloc: Global, plan: &Plan, room: usize) -> Result<Vec<Row>, NoMemory>
    requires { IsFit (tree_of plan.now) }
    ensures sites { IfOk result (λ rows. sites_of rows.items ≡ sites (tree_of plan.now)) }
    ensures laid { IfOk result (λ rows. IsLaid rows.items) }
{
    let mut rows = Vec::with_capacity(alloc, room)?;
    rows.push(row_of_root(alloc, &plan.root)?)?;
    lay_below(alloc, &plan.root, 0, &mut rows)?;
    Ok(rows)
}
