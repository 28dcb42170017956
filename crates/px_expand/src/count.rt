// How many nodes a tree has when it is expanded.
ghost use Rattle.std.specs.Prelude.{◌≡◌, ◌^◌, ◌-◌, map, min};
ghost use Rattle.px_syntax.specs.Block.{action_of, actions_in_turn, block_of, body_of, else_ifs_in_turn, guarded_of};
ghost use Rattle.px_expand.specs.Size.{actions_nodes, block_nodes, body_nodes, else_if_nodes, guarded_nodes};

use crate::shape::{Shape, shape_of};
use px_syntax::{Action, Block, Body, Guarded};

/// The nodes of a block, or `u32::MAX` where there are more.
#[cycle(count)]
pub(crate) fn block_nodes(block: &Block) -> u32
    ensures { result ≡ min (block_nodes (block_of block.now)) (2 ^ 32 - 1) }
{
    match shape_of(block) {
        Shape::Rest | Shape::OneAction(_) => 1,
        Shape::Children => actions_nodes(&block.actions).saturating_add(1),
    }
}

#[cycle(count)]
fn actions_nodes(actions: &[Action]) -> u32
    ensures { result ≡ min (actions_nodes (actions_in_turn (map action_of actions.now))) (2 ^ 32 - 1) }
{
    let mut nodes: u32 = 0;
    for action in actions {
        nodes = nodes.saturating_add(body_nodes(&action.body));
    }
    nodes
}

#[cycle(count)]
fn body_nodes(body: &Body) -> u32
    ensures { result ≡ min (body_nodes (body_of body.now)) (2 ^ 32 - 1) }
{
    match body {
        Body::Block(block) => block_nodes(block),
        Body::Assign { .. } | Body::CallInto { .. } | Body::Call(_) | Body::Update { .. } => 1,
        Body::If {
            first,
            others,
            otherwise,
        } => {
            let tests = guarded_nodes(first).saturating_add(else_if_nodes(others));
            match otherwise {
                Some(branch) => tests.saturating_add(block_nodes(&branch.block)),
                None => tests,
            }
        }
        Body::While(guarded) => guarded_nodes(guarded),
        // The List, `#loop`, `#set` and `#step`.
        Body::For { branch, .. } => block_nodes(&branch.block).saturating_add(4),
    }
}

#[cycle(count)]
fn else_if_nodes(others: &[Guarded]) -> u32
    ensures { result ≡ min (else_if_nodes (else_ifs_in_turn (map guarded_of others.now))) (2 ^ 32 - 1) }
{
    let mut nodes: u32 = 0;
    for other in others {
        nodes = nodes.saturating_add(guarded_nodes(other));
    }
    nodes
}

/// The List of a test, `#set` and the branch.
#[cycle(count)]
fn guarded_nodes(guarded: &Guarded) -> u32
    ensures { result ≡ min (guarded_nodes (guarded_of guarded.now)) (2 ^ 32 - 1) }
{
    block_nodes(&guarded.branch.block).saturating_add(2)
}
