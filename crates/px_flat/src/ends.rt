// The number after the last descendant of each node.
ghost use Rattle.std.specs.Prelude.{◌≡◌, ◌+◌, ◌≤◌, ◌++◌, ◌∷◌, [], length, IfOk, OnOk};
ghost use Rattle.px_core.specs.Plan.{count_of, tree_of, trees_of};
ghost use Rattle.px_flat.specs.Laying.{ends_from};

use px_core::{CoreNode, Plan};
use px_value::NoMemory;
use std::alloc::Global;

// Appends the ends of a node and of all below it.
fn push_ends(node: &CoreNode, ends: &mut Vec<u32>) -> Result<(), NoMemory>
    requires few { length ends.old.items + count_of (trees_of (node.now ∷ [])) ≤ 4096 }
    ensures { OnOk result (ends.new.items
        ≡ ends.old.items ++ ends_from (length ends.old.items) (trees_of (node.now ∷ []))) }
{
    let number = ends.len();
    ends.push(0)?;
    for child in &node.children {
        push_ends(child, ends)?;
    }
    ends[number] = ends.len() as u32;
    Ok(())
}

/// The number after the last descendant of each node, in preorder.
pub fn ends(alloc: Global, plan: &Plan) -> Result<Vec<u32>, NoMemory>
    requires { count_of (tree_of plan.now) ≤ 4096 }
    ensures { IfOk result (λ ends. ends.items ≡ ends_from 0 (tree_of plan.now)) }
{
    let mut ends = Vec::new(alloc);
    push_ends(&plan.root, &mut ends)?;
    Ok(ends)
}
