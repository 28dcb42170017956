// The check of a whole plan.
ghost use Rattle.std.specs.Prelude.{◌≡◌, [], slice_get, option_map, OnOk, IfOk, IfErr};
ghost use Rattle.px_syntax.specs.Block.{block_of};
ghost use Rattle.px_syntax.specs.BlockFaults.{block_faults};
ghost use Rattle.px_syntax.specs.Plan.{tree_of_surface};
ghost use Rattle.px_syntax.specs.PlanFaults.{all_faults, faults, outermost, block_cells, passing_fault};
ghost use Rattle.px_syntax.specs.Tolerances.{block_tolerances, passing_tolerance};
ghost use Rattle.px_check.specs.Checked.{IsFirst};
ghost use Rattle.px_check.specs.Found.{fault_of, behind, noted};

use crate::cells::CellCount;
use crate::declarations::note_declarations;
use crate::found::{Found, Spot};
use crate::globals::Globals;
use crate::scope::Scope;
use crate::tolerances::Tolerances;
use px_syntax::{Block, CheckFault, Surface};
use px_value::NoMemory;
use std::alloc::Global;

/// Looks for what a plan's tree is at fault for.
///
/// An Err names the first fault by its token, and of several at one token that of the least kind, exactly where there
/// is one; or memory has run out.
pub fn check(alloc: Global, tree: &Surface) -> Result<(), CheckFault>
    ensures ok { OnOk result (faults (tree_of_surface tree.now) ≡ []) }
    ensures fault { IfErr result (IsFirst (faults (tree_of_surface tree.now))) }
{
    match first_behind(alloc, tree, None)? {
        None => Ok(()),
        Some(spot) => Err(spot.kind.at(spot.token)),
    }
}

/// The first fault of a plan's tree that lies behind the floor, or the first of all where there is none: by its token, and
/// of several at one token that of the least kind. None exactly where there is no such fault.
pub fn first_behind(
    alloc: Global,
    tree: &Surface,
    floor: Option<Spot>,
) -> Result<Option<Spot>, NoMemory>
    ensures { IfOk result (λ first. option_map fault_of first
        ≡ slice_get (behind (option_map fault_of floor) (faults (tree_of_surface tree.now))) 0) }
{
    let mut found = Found::new(floor);
    note_tree(alloc, tree, &mut found)?;
    Ok(found.first())
}

// Notes what a tree is at fault for.
fn note_tree(alloc: Global, tree: &Surface, found: &mut Found) -> Result<(), NoMemory>
    ensures { OnOk result (found.new ≡ noted found.old (all_faults (tree_of_surface tree.now))) }
{
    note_declarations(alloc, &tree.declarations, found)?;
    note_blocks(alloc, tree, found)?;
    note_cells(&tree.root, found);
    note_tolerances(&tree.root, found);
    Ok(())
}

fn note_blocks(alloc: Global, tree: &Surface, found: &mut Found) -> Result<(), NoMemory>
    ensures { OnOk result (found.new ≡ noted found.old
        (block_faults (outermost (tree_of_surface tree.now)) (tree_of_surface tree.now).label (tree_of_surface tree.now).root)) }
{
    let globals = Globals::new(alloc, &tree.declarations)?;
    let mut scope = Scope::outermost(alloc, globals);
    let noted = scope.block(alloc, &tree.label, &tree.root, found);
    drop(scope);
    noted
}

fn note_cells(root: &Block, found: &mut Found)
    ensures { found.new ≡ noted found.old (passing_fault 0 (block_cells (block_of root.now))) }
{
    let mut cells = CellCount::new();
    cells.block(root);
    cells.note(found);
}

fn note_tolerances(root: &Block, found: &mut Found)
    ensures { found.new ≡ noted found.old (passing_tolerance [] (block_tolerances (block_of root.now))) }
{
    let mut tolerances = Tolerances::new();
    tolerances.block(root);
    tolerances.note(found);
}
