// The nodes that blocks and simple actions are, of what is in them.
ghost use Rattle.std.specs.Prelude.{◌≡◌, ◌<◌, length, map, IfOk, OnOk};
ghost use Rattle.px_syntax.specs.Block.{block_of, body_of as text_of};
ghost use Rattle.px_core.specs.Plan.{body_data, variable_data, trees_of};
ghost use Rattle.px_expand.specs.Core.{form_of, formed, items_of, shaped_as, simple};
ghost use Rattle.px_scope.specs.Items.{priority_of, variables_of};
ghost use Rattle.px_expand.specs.Items.{given_by};
ghost use Rattle.px_forms.specs.Nodes.{alone, leaf, list};
ghost use Rattle.px_forms.specs.Placed.{place_terms, tree_in};
ghost use Rattle.px_forms.specs.Shown.{given_terms};

use crate::entering::{Inside, enter_simple};
use crate::form::formed;
use crate::given::given_by;
use crate::shape::{Shape, shape_of};
use px_core::{Body, CoreNode, DEFAULT_PRIORITY, Kind, Variable};
use px_forms::{Given, Own, Place};
use px_scope::{Scope, body_of, kind_of, priority_of};
use px_syntax::Block;
use px_value::{NoMemory, Path};
use std::alloc::Global;

/// A block of each shape, in the scope inside it; a List has these nodes as its children.
pub(crate) fn shaped(
    alloc: Global,
    scope: &Scope,
    place: Place,
    block: &Block,
    inside: Inside,
    nodes: Vec<CoreNode>,
) -> Result<Box<CoreNode>, NoMemory>
    requires scope { 0 < length scope.now }
    requires variables { map variable_data inside.variables.items ≡ variables_of (items_of (block_of block.now)) }
    ensures { IfOk result (λ node. tree_in node ≡ alone (shaped_as (place_terms place) scope.now
        (block_of block.now) inside.listed.paths.items (trees_of nodes.items))) }
{
    let Inside { listed, variables } = inside;
    match shape_of(block) {
        Shape::Rest => single(
            alloc,
            scope,
            place,
            block,
            variables,
            Kind::Empty,
            Body::Nothing,
        ),
        Shape::OneAction(body) => {
            let made = body_of(alloc, scope, body)?;
            single(alloc, scope, place, block, variables, kind_of(body), made)
        }
        Shape::Children => list(alloc, scope, place, block, &listed.paths, variables, nodes),
    }
}

/// A block that is a single node of a kind, which does this.
fn single(
    alloc: Global,
    scope: &Scope,
    place: Place,
    block: &Block,
    variables: Vec<Variable>,
    kind: Kind,
    body: Body,
) -> Result<Box<CoreNode>, NoMemory>
    requires { 0 < length scope.now }
    ensures { IfOk result (λ node. tree_in node ≡ alone (leaf (place_terms place) kind
        (given_by scope.now (items_of (block_of block.now))) (priority_of (items_of (block_of block.now)))
        (map variable_data variables.items) (body_data body))) }
{
    let own = Own::new(alloc, priority_of(&block.items), variables, body)?;
    let given = given_by(alloc, scope, &block.items)?;
    place.node(alloc, kind, &[], given, own, Vec::new(alloc))
}

/// A block that is a List.
fn list(
    alloc: Global,
    scope: &Scope,
    place: Place,
    block: &Block,
    paths: &[Path],
    variables: Vec<Variable>,
    nodes: Vec<CoreNode>,
) -> Result<Box<CoreNode>, NoMemory>
    requires { 0 < length scope.now }
    ensures { IfOk result (λ node. tree_in node ≡ alone (list (place_terms place) paths.now
        (formed (form_of (block_of block.now)) paths.now (given_by scope.now (items_of (block_of block.now))))
        (priority_of (items_of (block_of block.now))) (map variable_data variables.items) (trees_of nodes.items))) }
{
    let given = list_given(alloc, scope, block, paths)?;
    let own = Own::new(alloc, priority_of(&block.items), variables, Body::Nothing)?;
    place.node(alloc, Kind::List, paths, given, own, nodes)
}

/// The conditions that a List gives, with what its form adds.
fn list_given(
    alloc: Global,
    scope: &Scope,
    block: &Block,
    paths: &[Path],
) -> Result<Box<Given>, NoMemory>
    requires { 0 < length scope.now }
    ensures { IfOk result (λ made. given_terms made.value
        ≡ formed (form_of (block_of block.now)) paths.now (given_by scope.now (items_of (block_of block.now)))) }
{
    let mut given = given_by(alloc, scope, &block.items)?;
    formed(alloc, block.form, paths, &mut given)?;
    Ok(given)
}

/// An assignment, a command or an update that is a node of its own.
pub(crate) fn simple(
    alloc: Global,
    scope: &mut Scope,
    place: Place,
    body: &px_syntax::Body,
) -> Result<Box<CoreNode>, NoMemory>
    ensures scope { OnOk result (scope.new ≡ scope.old) }
    ensures node { IfOk result
        (λ node. tree_in node ≡ alone (simple scope.old (place_terms place) (text_of body.now))) }
{
    enter_simple(alloc, scope, &place)?;
    let made = body_of(alloc, scope, body)?;
    scope.leave();
    let own = Own::new(alloc, DEFAULT_PRIORITY, Vec::new(alloc), made)?;
    let given = Given::none(alloc)?;
    place.node(alloc, kind_of(body), &[], given, own, Vec::new(alloc))
}
