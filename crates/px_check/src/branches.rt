// What is seen of the branches of an `if`, and which of their labels stand twice.
ghost use Rattle.std.specs.Prelude.{◌≡◌, ◌++◌, map, option_map, IfOk, OnOk};
ghost use Rattle.px_syntax.specs.Block.{branch_of, guarded_of, else_ifs_in_turn, else_of};
ghost use Rattle.px_syntax.specs.BlockFaults.{if_children, guarded_label, else_label, if_label_faults, else_child};
ghost use Rattle.px_check.specs.Found.{noted};
ghost use Rattle.px_check.specs.Nodes.{head_data};

use crate::found::Found;
use crate::heads::{branch_child, one_child, push_label};
use crate::nodes::NodeHead;
use crate::repeats::note_redeclared;
use px_syntax::{Branch, Guarded, Identifier};
use px_value::NoMemory;
use std::alloc::Global;

// The labels of the two branches of an `if`.
fn branch_labels<'a>(
    alloc: Global,
    guarded: &'a Guarded,
    otherwise: &'a Option<Branch>,
) -> Result<Vec<&'a Identifier>, NoMemory>
    ensures { IfOk result (λ labels. map (λ label. label.now) labels.items
        ≡ guarded_label (guarded_of guarded.now) ++ else_label (else_of (option_map branch_of otherwise.now))) }
{
    let mut labels = Vec::new(alloc);
    push_label(&mut labels, &guarded.branch.label)?;
    if let Some(branch) = otherwise {
        push_label(&mut labels, &branch.label)?;
    }
    Ok(labels)
}

/// Notes where the two branches of the last `if` of a chain have one label.
pub fn note_if_labels(
    alloc: Global,
    first: &Guarded,
    others: &[Guarded],
    otherwise: &Option<Branch>,
    found: &mut Found,
) -> Result<(), NoMemory>
    ensures { OnOk result (found.new ≡ noted found.old (if_label_faults (guarded_of first.now)
        (else_ifs_in_turn (map guarded_of others.now)) (else_of (option_map branch_of otherwise.now)))) }
{
    let mut last = first;
    for next in others {
        last = next;
    }
    note_redeclared(alloc, &branch_labels(alloc, last, otherwise)?, found)
}

/// The heads of the nodes that the first `if` of a chain has as children.
pub fn if_children(
    alloc: Global,
    first: &Guarded,
    others: &[Guarded],
    otherwise: &Option<Branch>,
) -> Result<Vec<NodeHead>, NoMemory>
    ensures { IfOk result (λ heads. map head_data heads.items ≡ if_children (guarded_of first.now)
        (else_ifs_in_turn (map guarded_of others.now)) (else_child (else_of (option_map branch_of otherwise.now)))) }
{
    let mut heads = one_child(alloc, &first.branch)?;
    if 0 < others.len() {
        return Ok(heads);
    }
    if let Some(branch) = otherwise {
        heads.push(branch_child(alloc, branch)?)?;
    }
    Ok(heads)
}
