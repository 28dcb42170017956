// What kind of node a block is.
ghost use Rattle.std.specs.Prelude.{◌≡◌, map};
ghost use Rattle.px_syntax.specs.Block.{action_of, actions_in_turn, block_of, body_of};
ghost use Rattle.px_syntax.specs.Scope.{is_simple};
ghost use Rattle.px_expand.specs.Kinds.{alone, plain_shape, shape_of};
ghost use Rattle.px_expand.specs.Shown.{shape_data};

use px_syntax::{Action, Block, BlockForm, Body};

/// What a block is.
#[derive(Clone, Copy)]
pub(crate) enum Shape<'a> {
    Rest,
    /// One node with its only action.
    OneAction(&'a Body),
    /// A List.
    Children,
}

/// What a block is.
pub(crate) fn shape_of(block: &Block) -> Shape<'_>
    ensures { shape_data result ≡ shape_of (block_of block.now) }
{
    match block.form {
        BlockForm::Plain => plain_shape(&block.actions),
        BlockForm::NodeList
        | BlockForm::Sequence
        | BlockForm::UncheckedSequence
        | BlockForm::Concurrence
        | BlockForm::Try => Shape::Children,
    }
}

/// What a plain block with these actions is: Empty without any, and one node with its only action where that is an
/// assignment, a command or an update without a label.
#[tactic(auto, using(crate::proofs::Shapes::several, crate::proofs::Shapes::one))]
fn plain_shape(actions: &[Action]) -> Shape<'_>
    ensures { shape_data result ≡ plain_shape (actions_in_turn (map action_of actions.now)) }
{
    match actions {
        [] => Shape::Rest,
        [action] => alone(action),
        _ => Shape::Children,
    }
}

/// What a plain block with this action alone is.
fn alone(action: &Action) -> Shape<'_>
    ensures { shape_data result ≡ alone (action_of action.now) }
{
    if action.label.is_none() && is_simple(&action.body) {
        Shape::OneAction(&action.body)
    } else {
        Shape::Children
    }
}

fn is_simple(body: &Body) -> bool
    ensures { result ≡ is_simple (body_of body.now) }
{
    matches!(
        body,
        Body::Assign { .. } | Body::CallInto { .. } | Body::Call(_) | Body::Update { .. }
    )
}
