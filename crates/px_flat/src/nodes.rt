// The nodes of a plan in preorder, lent by the plan.
ghost use Rattle.std.specs.Prelude.{◌≡◌, ◌++◌, [], ◌∷◌, IfOk, OnOk};
ghost use Rattle.px_core.specs.Plan.{tree_of, trees_of};
ghost use Rattle.px_flat.specs.Laying.{heads_in, heads_of};

use px_core::{CoreNode, Plan};
use px_value::NoMemory;
use std::alloc::Global;

// Appends a node and all below it.
fn push_nodes<'a>(node: &'a CoreNode, nodes: &mut Vec<&'a CoreNode>) -> Result<(), NoMemory>
    ensures { OnOk result (heads_of nodes.new.items
        ≡ heads_of nodes.old.items ++ heads_in (trees_of (node.now ∷ []))) }
{
    nodes.push(node)?;
    for child in &node.children {
        push_nodes(child, nodes)?;
    }
    Ok(())
}

/// The nodes of a plan in preorder.
pub fn nodes_of(alloc: Global, plan: &Plan) -> Result<Vec<&CoreNode>, NoMemory>
    ensures { IfOk result (λ nodes. heads_of nodes.items ≡ heads_in (tree_of plan.now)) }
{
    let mut nodes = Vec::new(alloc);
    push_nodes(&plan.root, &mut nodes)?;
    Ok(nodes)
}
