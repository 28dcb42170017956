// How long the paths of the nodes are that a tree has when it is expanded.
ghost use Rattle.std.specs.Prelude.{◌≡◌, ◌≤◌, map, max, min};
ghost use Rattle.std.specs.Option.{option_map};
ghost use Rattle.px_syntax.specs.Block.{action_of, actions_in_turn, block_of, body_of, branch_of, else_ifs_in_turn, else_of, guarded_of};
ghost use Rattle.px_forms.specs.Names.{generated, then_name};
ghost use Rattle.px_expand.specs.Names.{named};
ghost use Rattle.px_expand.specs.Size.{actions_nodes, block_nodes, body_nodes, branch_nodes, else_if_nodes, else_nodes, guarded_nodes, actions_reach, block_reach, body_reach, branch_reach, else_if_reach, else_reach, guarded_reach, through};

use crate::names::name_length;
use crate::shape::{Shape, shape_of};
use px_forms::Generated;
use px_syntax::{Action, Block, Body, Branch, Guarded, Identifier};
use px_value::PATH_LIMIT;

/// What stands beyond each limit.
const FAR: usize = PATH_LIMIT + 1;

/// The bytes of the longest path below a node, a dot and the node's name.
fn through(label: &Option<Identifier>, unlabelled: Generated, reach: usize) -> usize
    ensures { result ≡ min (through (named label.now (generated unlabelled)) reach) FAR }
{
    name_length(label, unlabelled)
        .saturating_add(1)
        .saturating_add(reach)
        .min(FAR)
}

fn fixed(name: Generated, reach: usize) -> usize
    ensures { result ≡ min (through (generated name) reach) FAR }
{
    through(&None, name, reach)
}

/// How many bytes the longest path below a block has behind that of the block, or more than each limit.
#[cycle(reach)]
pub(crate) fn block_reach(block: &Block) -> usize
    requires { block_nodes (block_of block.now) ≤ 4096 }
    ensures { result ≡ min (block_reach (block_of block.now)) FAR }
{
    match shape_of(block) {
        Shape::Rest | Shape::OneAction(_) => 0,
        Shape::Children => actions_reach(&block.actions),
    }
}

#[cycle(reach)]
fn actions_reach(actions: &[Action]) -> usize
    requires { actions_nodes (actions_in_turn (map action_of actions.now)) ≤ 4096 }
    ensures { result ≡ min (actions_reach 1 (actions_in_turn (map action_of actions.now))) FAR }
{
    let mut longest: usize = 0;
    let mut place: u32 = 0;
    for action in actions {
        place += 1;
        let reach = body_reach(&action.body);
        let far = through(&action.label, Generated::Action(place), reach);
        longest = longest.max(far);
    }
    longest
}

#[cycle(reach)]
fn body_reach(body: &Body) -> usize
    requires { body_nodes (body_of body.now) ≤ 4096 }
    ensures { result ≡ min (body_reach (body_of body.now)) FAR }
{
    match body {
        Body::Block(block) => block_reach(block),
        Body::Assign { .. } | Body::CallInto { .. } | Body::Call(_) | Body::Update { .. } => 0,
        Body::If {
            first,
            others,
            otherwise,
        } => {
            let own = guarded_reach(Generated::Then, first);
            let last = else_reach(otherwise);
            own.max(else_if_reach(last, others))
        }
        Body::While(guarded) => guarded_reach(Generated::Body, guarded),
        Body::For { branch, .. } => {
            let set = fixed(Generated::Set, 0);
            let step = fixed(Generated::Step, 0);
            let body = branch_reach(Generated::Body, branch);
            fixed(Generated::Loop, step.max(set).max(body))
        }
    }
}

/// The `elseif`s, each inside the one before, from the last to the first.
#[cycle(reach)]
fn else_if_reach(last: usize, others: &[Guarded]) -> usize
    requires { else_if_nodes (else_ifs_in_turn (map guarded_of others.now)) ≤ 4096 }
    ensures { result ≡ min (else_if_reach last (else_ifs_in_turn (map guarded_of others.now))) FAR }
{
    let mut reach = last.min(FAR);
    let mut place = others.len();
    while 0 < place {
        place -= 1;
        let own = guarded_reach(Generated::Then, &others[place]);
        reach = fixed(Generated::Else, own.max(reach));
    }
    reach
}

#[cycle(reach)]
fn else_reach(otherwise: &Option<Branch>) -> usize
    requires { else_nodes (else_of (option_map branch_of otherwise.now)) ≤ 4096 }
    ensures { result ≡ min (else_reach (else_of (option_map branch_of otherwise.now))) FAR }
{
    match otherwise {
        Some(branch) => branch_reach(Generated::Else, branch),
        None => 0,
    }
}

#[cycle(reach)]
fn guarded_reach(unlabelled: Generated, guarded: &Guarded) -> usize
    requires { guarded_nodes (guarded_of guarded.now) ≤ 4096 }
    ensures { result ≡ min (guarded_reach (generated unlabelled) (guarded_of guarded.now)) FAR }
{
    let set = fixed(Generated::Set, 0);
    branch_reach(unlabelled, &guarded.branch).max(set)
}

#[cycle(reach)]
fn branch_reach(unlabelled: Generated, branch: &Branch) -> usize
    requires { branch_nodes (branch_of branch.now) ≤ 4096 }
    ensures { result ≡ min (branch_reach (generated unlabelled) (branch_of branch.now)) FAR }
{
    let reach = block_reach(&branch.block);
    through(&branch.label, unlabelled, reach)
}
