// What is seen of the nodes that blocks and actions are.
ghost use Rattle.std.specs.Prelude.{◌≡◌, [], ◌∷◌, ◌++◌, map, option_map, IfOk, OnOk};
ghost use Rattle.std.specs.Option.{option_to_list};
ghost use Rattle.px_syntax.specs.Block.{block_of, body_of, action_of, branch_of, actions_in_turn};
ghost use Rattle.px_syntax.specs.BlockFaults.{action_labels};
ghost use Rattle.px_syntax.specs.Scope.{head_of, is_simple, own_action, is_call, is_command_block, is_command_body, children_of, branch_child};
ghost use Rattle.px_check.specs.Nodes.{head_data};

use crate::nodes::NodeHead;
use px_syntax::{Action, Block, BlockForm, Body, Branch, Identifier};
use px_value::NoMemory;
use std::alloc::Global;

/// The head of a node with this label.
pub fn head_of(
    alloc: Global,
    label: &Option<Identifier>,
    is_command: bool,
) -> Result<NodeHead, NoMemory>
    ensures { IfOk result (λ head. head_data head ≡ head_of label.now is_command) }
{
    let label = match label {
        Some(label) => Some(label.name.copy(alloc)?),
        None => None,
    };
    Ok(NodeHead { label, is_command })
}

fn is_simple(body: &Body) -> bool
    ensures { result ≡ is_simple (body_of body.now) }
{
    match body {
        Body::Assign { .. } | Body::CallInto { .. } | Body::Call(_) | Body::Update { .. } => true,
        Body::Block(_) | Body::If { .. } | Body::While(_) | Body::For { .. } => false,
    }
}

fn is_call(body: &Body) -> bool
    ensures { result ≡ is_call (body_of body.now) }
{
    match body {
        Body::CallInto { .. } | Body::Call(_) => true,
        Body::Assign { .. }
        | Body::Update { .. }
        | Body::Block(_)
        | Body::If { .. }
        | Body::While(_)
        | Body::For { .. } => false,
    }
}

/// The action that a block is one node with.
pub fn own_action(block: &Block) -> Option<&Body>
    ensures { option_map (λ body. body_of body.now) result ≡ own_action (block_of block.now) }
{
    let BlockForm::Plain = block.form else {
        return None;
    };
    if block.actions.len() != 1 {
        return None;
    }
    let action = &block.actions[0];
    if action.label.is_some() {
        return None;
    }
    if is_simple(&action.body) {
        Some(&action.body)
    } else {
        None
    }
}

/// Whether the node of a block is a Command.
pub fn is_command_block(block: &Block) -> bool
    ensures { result ≡ is_command_block (block_of block.now) }
{
    match own_action(block) {
        Some(body) => is_call(body),
        None => false,
    }
}

fn is_command_body(body: &Body) -> bool
    ensures { result ≡ is_command_body (body_of body.now) }
{
    match body {
        Body::Block(block) => is_command_block(block),
        body => is_call(body),
    }
}

/// The heads of the nodes that the actions of a block are.
pub fn children_of(alloc: Global, actions: &[Action]) -> Result<Vec<NodeHead>, NoMemory>
    ensures { IfOk result (λ heads. map head_data heads.items
        ≡ children_of (actions_in_turn (map action_of actions.now))) }
{
    let mut heads = Vec::new(alloc);
    for action in actions {
        heads.push(head_of(alloc, &action.label, is_command_body(&action.body))?)?;
    }
    Ok(heads)
}

/// The head of the node that a branch is.
pub fn branch_child(alloc: Global, branch: &Branch) -> Result<NodeHead, NoMemory>
    ensures { IfOk result (λ head. head_data head ∷ [] ≡ branch_child (branch_of branch.now)) }
{
    head_of(alloc, &branch.label, is_command_block(&branch.block))
}

/// The head of the node that a branch is, alone.
pub fn one_child(alloc: Global, branch: &Branch) -> Result<Vec<NodeHead>, NoMemory>
    ensures { IfOk result (λ heads. map head_data heads.items ≡ branch_child (branch_of branch.now)) }
{
    let mut heads = Vec::new(alloc);
    heads.push(branch_child(alloc, branch)?)?;
    Ok(heads)
}

/// Puts a label behind others, where there is one.
pub fn push_label<'a>(
    labels: &mut Vec<&'a Identifier>,
    label: &'a Option<Identifier>,
) -> Result<(), NoMemory>
    ensures { OnOk result (map (λ label. label.now) labels.new.items
        ≡ map (λ label. label.now) labels.old.items ++ option_to_list label.now) }
{
    if let Some(label) = label {
        labels.push(label)?;
    }
    Ok(())
}

/// The labels of actions, in their order.
pub fn action_labels(alloc: Global, actions: &[Action]) -> Result<Vec<&Identifier>, NoMemory>
    ensures { IfOk result (λ labels. map (λ label. label.now) labels.items
        ≡ action_labels (actions_in_turn (map action_of actions.now))) }
{
    let mut labels = Vec::new(alloc);
    for action in actions {
        push_label(&mut labels, &action.label)?;
    }
    Ok(labels)
}
