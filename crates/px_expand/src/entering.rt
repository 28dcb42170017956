// Going into the nodes of the text.
ghost use Rattle.std.specs.Prelude.{◌≡◌, ◌+◌, ◌<◌, ◌≤◌, ◌∷◌, [], length, map, IfOk, IfSome, OnOk};
ghost use Rattle.std.specs.Option.{option_copied, option_to_list};
ghost use Rattle.px_syntax.specs.Block.{block_of, branch_of};
ghost use Rattle.px_core.specs.Plan.{NoNode, variable_data};
ghost use Rattle.px_expand.specs.Chain.{stands};
ghost use Rattle.px_expand.specs.Core.{block_scope, block_seen, branch_name, if_scope, if_seen, items_of, loop_seen};
ghost use Rattle.px_scope.specs.Items.{variables_of};
ghost use Rattle.px_forms.specs.Names.{body_name, then_name};
ghost use Rattle.px_expand.specs.Children.{inside, names_of, paths_of, entered};
ghost use Rattle.px_forms.specs.Placed.{place_terms};
ghost use Rattle.px_scope.specs.Scope.{each_once, table};
ghost use Rattle.px_expand.specs.Size.{block_reach};

use crate::children::{Children, Listed};
use crate::shape::{Shape, shape_of};
use indexmap::IndexSet;
use px_core::Variable;
use px_forms::{Generated, Place};
use px_scope::{Scope, variables_of};
use px_syntax::{Block, Branch};
use px_value::{Name, NoMemory, PATH_LIMIT, Path};
use std::alloc::Global;

/// Goes into the node of a place, and gives its children in their order. After an error the scope is of no use.
fn enter(
    alloc: Global,
    scope: &mut Scope,
    place: &Place,
    children: Children,
    variables: IndexSet<Name>,
) -> Result<Listed, NoMemory>
    ensures scope { OnOk result
        (scope.new ≡ entered scope.old (place_terms place.now) children.by_name.entries variables.keys) }
    ensures listed { IfOk result (λ listed. listed ≡ children.listed) }
{
    let name = place.name.copy(alloc)?;
    let path = place.path.copy(alloc)?;
    let Children { by_name, listed } = children;
    scope.enter(name, path, by_name, variables)?;
    Ok(listed)
}

/// What is found on the way into a block: its children, and its variables.
#[derive(Drop)]
pub(crate) struct Inside {
    pub(crate) listed: Listed,
    pub(crate) variables: Vec<Variable>,
}

/// Goes into a block.
pub(crate) fn enter_block(
    alloc: Global,
    scope: &mut Scope,
    place: &Place,
    block: &Block,
) -> Result<Inside, NoMemory>
    requires { length place.now.path + block_reach (block_of block.now) ≤ PATH_LIMIT }
    ensures scope { OnOk result (scope.new ≡ block_scope scope.old (place_terms place.now) (block_of block.now)) }
    ensures names { IfOk result
        (λ inside. inside.listed.names.items ≡ names_of (block_seen place.now.path (block_of block.now))) }
    ensures paths { IfOk result
        (λ inside. inside.listed.paths.items ≡ paths_of (block_seen place.now.path (block_of block.now))) }
    ensures variables { IfOk result
        (λ inside. map variable_data inside.variables.items ≡ variables_of (items_of (block_of block.now))) }
{
    let variables = variables_of(alloc, &block.items)?;
    let names = names_of(alloc, &variables)?;
    let children = block_children(alloc, &place.path, block)?;
    let listed = enter(alloc, scope, place, children, names)?;
    Ok(Inside { listed, variables })
}

/// The children that the text has of a block at a path.
fn block_children(alloc: Global, path: &Path, block: &Block) -> Result<Children, NoMemory>
    requires { length path.now + block_reach (block_of block.now) ≤ PATH_LIMIT }
    ensures by_name { IfOk result
        (λ made. made.by_name.entries ≡ table (block_seen path.now (block_of block.now))) }
    ensures names { IfOk result
        (λ made. made.listed.names.items ≡ names_of (block_seen path.now (block_of block.now))) }
    ensures paths { IfOk result
        (λ made. made.listed.paths.items ≡ paths_of (block_seen path.now (block_of block.now))) }
{
    match shape_of(block) {
        Shape::Children => Children::of_actions(alloc, path, &block.actions),
        Shape::Rest | Shape::OneAction(_) => Ok(Children::none(alloc)),
    }
}

fn names_of(alloc: Global, variables: &[Variable]) -> Result<IndexSet<Name>, NoMemory>
    ensures { IfOk result
        (λ names. names.keys ≡ each_once (map (λ variable. variable.name) (map variable_data variables.now))) }
{
    let mut names = IndexSet::with_capacity(alloc, variables.len())?;
    for variable in variables {
        names.insert(variable.name.copy(alloc)?)?;
    }
    Ok(names)
}

/// Goes into a node that has no children in the text, and no variables.
pub(crate) fn enter_simple(alloc: Global, scope: &mut Scope, place: &Place) -> Result<(), NoMemory>
    ensures { OnOk result (scope.new ≡ entered scope.old (place_terms place.now) [] []) }
{
    enter(
        alloc,
        scope,
        place,
        Children::none(alloc),
        IndexSet::new(alloc),
    )?;
    Ok(())
}

/// Goes into an `if` with this branch; `behind` is the name of what stands behind it. Gives their names
/// and paths.
pub(crate) fn enter_if(
    alloc: Global,
    scope: &mut Scope,
    place: &Place,
    branch: &Branch,
    behind: Option<Name>,
) -> Result<Listed, NoMemory>
    requires branch { length place.now.path + length (branch_name then_name (branch_of branch.now)) < PATH_LIMIT }
    requires behind { IfSome behind (λ name. length place.now.path + length name < PATH_LIMIT) }
    ensures scope { OnOk result (scope.new
        ≡ if_scope scope.old (place_terms place.now) (branch_of branch.now) (stands behind NoNode)) }
    ensures names { IfOk result (λ listed. listed.names.items
        ≡ names_of (if_seen place.now.path (branch_of branch.now) (stands behind NoNode))) }
    ensures paths { IfOk result (λ listed. listed.paths.items
        ≡ paths_of (if_seen place.now.path (branch_of branch.now) (stands behind NoNode))) }
{
    let mut children = Children::of_branch(alloc, &place.path, Generated::Then, branch)?;
    if let Some(name) = behind {
        children.push(alloc, &place.path, name)?;
    }
    enter(alloc, scope, place, children, IndexSet::new(alloc))
}

/// Goes into a `while` or a `for` with this variable, whose branch stands below a path. Gives the branch's name
/// and path.
pub(crate) fn enter_loop(
    alloc: Global,
    scope: &mut Scope,
    place: &Place,
    path: &Path,
    branch: &Branch,
    variable: Option<&Name>,
) -> Result<Listed, NoMemory>
    requires { length path.now + length (branch_name body_name (branch_of branch.now)) < PATH_LIMIT }
    ensures scope { OnOk result (scope.new ≡ inside scope.old (place_terms place.now)
        (loop_seen path.now (branch_of branch.now)) (option_to_list (option_copied variable.entry))) }
    ensures names { IfOk result (λ listed. listed.names.items ≡ names_of (loop_seen path.now (branch_of branch.now))) }
    ensures paths { IfOk result (λ listed. listed.paths.items ≡ paths_of (loop_seen path.now (branch_of branch.now))) }
{
    let mut variables = IndexSet::new(alloc);
    if let Some(name) = variable {
        variables.insert(name.copy(alloc)?)?;
    }
    let children = Children::of_branch(alloc, path, Generated::Body, branch)?;
    enter(alloc, scope, place, children, variables)
}
