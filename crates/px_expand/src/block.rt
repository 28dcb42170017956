// The nodes that blocks and actions are.
ghost use Rattle.std.specs.Prelude.{◌≡◌, ◌+◌, ◌<◌, ◌≤◌, max, length, map, None, IfOk, IfSome, OnOk};
ghost use Rattle.std.specs.Option.{option_copied, option_map};
ghost use Rattle.px_core.specs.Plan.{Tree, trees_of};
ghost use Rattle.px_syntax.specs.Block.{action_of, actions_in_turn, For, While, block_of, body_of, branch_of, else_ifs_in_turn, else_of, guarded_of};
ghost use Rattle.px_syntax.specs.Expr.{term_of as text_of};
ghost use Rattle.px_expand.specs.Chain.{closed, open_scope, stands};
ghost use Rattle.px_expand.specs.Core.{actions_core, actions_in, block_core, body_core, branch_name, actions_seen, block_seen, chain_core, else_core, follows, form_of, if_core};
ghost use Rattle.px_forms.specs.Forms.{where_not_found};
ghost use Rattle.px_expand.specs.Kinds.{Children, shape_of};
ghost use Rattle.px_forms.specs.Names.{body_name, else_name, then_name};
ghost use Rattle.px_forms.specs.Nodes.{alone, child};
ghost use Rattle.px_expand.specs.Children.{names_of, paths_of};
ghost use Rattle.px_forms.specs.Placed.{place_terms, tree_in};
ghost use Rattle.px_scope.specs.Scope.{here};
ghost use Rattle.px_expand.specs.Size.{actions_reach, block_reach, body_reach, else_if_reach, else_reach, guarded_reach};

use crate::branches::{Entered, EnteredFor, into_for, into_if, into_while};
use crate::children::Listed;
use crate::closing::close_all;
use crate::entering::enter_block;
use crate::form::follows;
use crate::names::named;
use crate::opened::OpenIf;
use crate::shape::{Shape, shape_of};
use crate::shaped::{shaped, simple};
use px_core::CoreNode;
use px_forms::{Generated, Place, counted, only, push, repeated, where_not_found};
use px_scope::Scope;
use px_syntax::{Action, Block, BlockForm, Body, Branch, Guarded, Identifier, SurfaceExpr};
use px_value::{Name, NoMemory, PATH_LIMIT, Path};
use std::alloc::Global;

/// A block in its place. Comes back to the scope round it; after an error the scope is of no use.
#[cycle(block)]
pub(crate) fn block(
    alloc: Global,
    scope: &mut Scope,
    place: Place,
    block: &Block,
) -> Result<Box<CoreNode>, NoMemory>
    requires { length place.path + block_reach (block_of block.now) ≤ PATH_LIMIT }
    ensures scope { OnOk result (scope.new ≡ scope.old) }
    ensures node { IfOk result (λ node. tree_in node
        ≡ alone (block_core scope.old (place_terms place) (block_of block.now))) }
{
    let inside = enter_block(alloc, scope, &place, block)?;
    let nodes = nodes_in(alloc, scope, block, &inside.listed)?;
    let node = shaped(alloc, scope, place, block, inside, nodes)?;
    scope.leave();
    Ok(node)
}

/// The nodes in a block that has these children, in the scope inside it, if it is a List.
#[cycle(block)]
fn nodes_in(
    alloc: Global,
    scope: &mut Scope,
    block: &Block,
    listed: &Listed,
) -> Result<Vec<CoreNode>, NoMemory>
    requires room { length (here scope.old) + block_reach (block_of block.now) ≤ PATH_LIMIT }
    requires names { listed.now.names.items ≡ names_of (block_seen (here scope.old) (block_of block.now)) }
    requires paths { listed.now.paths.items ≡ paths_of (block_seen (here scope.old) (block_of block.now)) }
    ensures scope { OnOk result (scope.new ≡ scope.old) }
    ensures nodes { IfOk result (λ nodes. Children ≡ shape_of (block_of block.now) → trees_of nodes.items
        ≡ actions_core scope.old (here scope.old) (form_of (block_of block.now)) None 1 (actions_in (block_of block.now))) }
{
    match shape_of(block) {
        Shape::Children => actions(
            alloc,
            scope,
            block.form,
            &block.actions,
            &listed.names,
            &listed.paths,
        ),
        Shape::Rest | Shape::OneAction(_) => Ok(Vec::new(alloc)),
    }
}

/// The actions of a block, of these names and paths, in the scope inside it.
#[cycle(block)]
fn actions(
    alloc: Global,
    scope: &mut Scope,
    form: BlockForm,
    actions: &[Action],
    names: &[Name],
    paths: &[Path],
) -> Result<Vec<CoreNode>, NoMemory>
    requires room { length (here scope.old) + actions_reach 1 (actions_in_turn (map action_of actions.now)) ≤ PATH_LIMIT }
    requires names { names.now ≡ names_of (actions_seen (here scope.old) 1 (actions_in_turn (map action_of actions.now))) }
    requires paths { paths.now ≡ paths_of (actions_seen (here scope.old) 1 (actions_in_turn (map action_of actions.now))) }
    ensures scope { OnOk result (scope.new ≡ scope.old) }
    ensures nodes { IfOk result (λ nodes. trees_of nodes.items
        ≡ actions_core scope.old (here scope.old) form None 1 (actions_in_turn (map action_of actions.now))) }
{
    let mut nodes = Vec::with_capacity(alloc, actions.len())?;
    let mut behind: Option<&Path> = None;
    for (number, action) in actions.iter().enumerate() {
        let path = &paths[number];
        let place = action_place(alloc, form, behind, path, &names[number])?;
        behind = Some(path);
        let node = body(alloc, scope, place, &action.body)?;
        push(&mut nodes, node)?;
    }
    Ok(nodes)
}

/// Where an action of this path and this name stands, behind another or as the first.
fn action_place(
    alloc: Global,
    form: BlockForm,
    behind: Option<&Path>,
    path: &Path,
    name: &Name,
) -> Result<Place, NoMemory>
    ensures { IfOk result (λ made. place_terms made
        ≡ record { path = path.now; name = name.now; added = follows form (option_copied behind.entry) }) }
{
    let added = follows(alloc, form, behind)?;
    Place::of(alloc, path, name, added)
}

/// What an action does, in its place.
#[cycle(block)]
fn body(
    alloc: Global,
    scope: &mut Scope,
    place: Place,
    body: &Body,
) -> Result<Box<CoreNode>, NoMemory>
    requires { length place.path + body_reach (body_of body.now) ≤ PATH_LIMIT }
    ensures scope { OnOk result (scope.new ≡ scope.old) }
    ensures node { IfOk result (λ node. tree_in node
        ≡ alone (body_core scope.old (place_terms place) (body_of body.now))) }
{
    match body {
        Body::Block(inner) => block(alloc, scope, place, inner),
        Body::Assign { .. } | Body::CallInto { .. } | Body::Call(_) | Body::Update { .. } => {
            simple(alloc, scope, place, body)
        }
        Body::If {
            first,
            others,
            otherwise,
        } => chain(alloc, scope, place, first, others, otherwise),
        Body::While(guarded) => while_loop(alloc, scope, place, guarded),
        Body::For {
            variable,
            first,
            test,
            step,
            branch,
        } => for_loop(alloc, scope, place, variable, *first, test, step, branch),
    }
}

#[cycle(block)]
fn for_loop(
    alloc: Global,
    scope: &mut Scope,
    place: Place,
    variable: &Identifier,
    first: i32,
    test: &SurfaceExpr,
    step: &SurfaceExpr,
    branch: &Branch,
) -> Result<Box<CoreNode>, NoMemory>
    requires { length place.path + body_reach (For variable.now first (text_of test.now) (text_of step.now)
        (branch_of branch.now)) ≤ PATH_LIMIT }
    ensures scope { OnOk result (scope.new ≡ scope.old) }
    ensures node { IfOk result (λ node. tree_in node ≡ alone (body_core scope.old (place_terms place)
        (For variable.now first (text_of test.now) (text_of step.now) (branch_of branch.now)))) }
{
    let EnteredFor {
        inner,
        turn,
        branch: own,
    } = into_for(alloc, scope, &place, variable, test, step, branch)?;
    let body = own.path.copy(alloc)?;
    let node = block(alloc, scope, own, &branch.block)?;
    scope.leave();
    counted(alloc, place, inner, &variable.name, first, turn, body, node)
}

#[cycle(block)]
fn while_loop(
    alloc: Global,
    scope: &mut Scope,
    place: Place,
    guarded: &Guarded,
) -> Result<Box<CoreNode>, NoMemory>
    requires { length place.path + guarded_reach body_name (guarded_of guarded.now) ≤ PATH_LIMIT }
    ensures scope { OnOk result (scope.new ≡ scope.old) }
    ensures node { IfOk result (λ node. tree_in node
        ≡ alone (body_core scope.old (place_terms place) (While (guarded_of guarded.now)))) }
{
    let Entered {
        test,
        paths,
        branch,
    } = into_while(alloc, scope, &place, guarded)?;
    let node = block(alloc, scope, branch, &guarded.branch.block)?;
    scope.leave();
    let nodes = only(alloc, node)?;
    repeated(alloc, place, test, paths, nodes)
}

/// Goes into an `if`, and makes its branch; `behind` is the name of what stands behind it.
#[cycle(block)]
fn opened(
    alloc: Global,
    scope: &mut Scope,
    place: Place,
    guarded: &Guarded,
    behind: Option<Name>,
) -> Result<OpenIf, NoMemory>
    requires branch { length place.path + guarded_reach then_name (guarded_of guarded.now) ≤ PATH_LIMIT }
    requires behind { IfSome behind (λ name. length place.path + length name < PATH_LIMIT) }
    ensures scope { OnOk result (scope.new
        ≡ open_scope scope.old (place_terms place) (guarded_of guarded.now) behind) }
    ensures place { IfOk result (λ made. place_terms made.place ≡ place_terms place) }
    ensures closed { IfOk result (λ made. (after : Tree) → closed made after
        ≡ alone (if_core scope.old (place_terms place) (stands behind after) (guarded_of guarded.now))) }
{
    let Entered {
        test,
        paths,
        branch,
    } = into_if(alloc, scope, &place, guarded, behind)?;
    let branch = block(alloc, scope, branch, &guarded.branch.block)?;
    Ok(OpenIf {
        place,
        test,
        paths,
        branch,
    })
}

/// A chain of `if`s, each inside the one before: from the first to the last they are opened, and from the last to the first
/// they are closed.
#[cycle(block)]
fn chain(
    alloc: Global,
    scope: &mut Scope,
    place: Place,
    first: &Guarded,
    others: &[Guarded],
    otherwise: &Option<Branch>,
) -> Result<Box<CoreNode>, NoMemory>
    requires { length place.path + max (guarded_reach then_name (guarded_of first.now))
        (else_if_reach (else_reach (else_of (option_map branch_of otherwise.now)))
        (else_ifs_in_turn (map guarded_of others.now))) ≤ PATH_LIMIT }
    ensures scope { OnOk result (scope.new ≡ scope.old) }
    ensures node { IfOk result (λ node. tree_in node
        ≡ alone (if_core scope.old (place_terms place)
        (chain_core (else_core (else_of (option_map branch_of otherwise.now)))
        (else_ifs_in_turn (map guarded_of others.now))) (guarded_of first.now))) }
{
    let mut outer = Vec::with_capacity(alloc, others.len())?;
    let mut place = place;
    let mut guarded = first;
    for other in others {
        let behind = Generated::Else.name(alloc)?;
        let next = else_place(alloc, &place.path)?;
        outer.push(opened(alloc, scope, place, guarded, Some(behind))?)?;
        place = next;
        guarded = other;
    }
    let node = last(alloc, scope, place, guarded, otherwise)?;
    close_all(alloc, scope, outer, node)
}

/// Where an `elseif` stands in the `if` at a path.
fn else_place(alloc: Global, path: &Path) -> Result<Place, NoMemory>
    requires { length path.now + 6 ≤ PATH_LIMIT }
    ensures { IfOk result (λ made. place_terms made ≡ child path.now else_name (where_not_found path.now)) }
{
    let added = where_not_found(alloc, path)?;
    Place::generated(alloc, path, Generated::Else, added)
}

/// The last `if` of a chain.
#[cycle(block)]
fn last(
    alloc: Global,
    scope: &mut Scope,
    place: Place,
    guarded: &Guarded,
    otherwise: &Option<Branch>,
) -> Result<Box<CoreNode>, NoMemory>
    requires { length place.path + max (guarded_reach then_name (guarded_of guarded.now))
        (else_reach (else_of (option_map branch_of otherwise.now))) ≤ PATH_LIMIT }
    ensures scope { OnOk result (scope.new ≡ scope.old) }
    ensures node { IfOk result (λ node. tree_in node
        ≡ alone (if_core scope.old (place_terms place) (else_core (else_of (option_map branch_of otherwise.now)))
        (guarded_of guarded.now))) }
{
    let Some(branch) = otherwise else {
        let opened = opened(alloc, scope, place, guarded, None)?;
        scope.leave();
        return opened.close(alloc);
    };
    let name = named(alloc, &branch.label, Generated::Else)?;
    let opened = opened(alloc, scope, place, guarded, Some(name))?;
    let own = last_place(alloc, &opened.place.path, branch)?;
    let node = block(alloc, scope, own, &branch.block)?;
    scope.leave();
    opened.close_before(alloc, node)
}

/// Where what stands after `else` stands in the last `if` of a chain, at a path.
fn last_place(alloc: Global, path: &Path, branch: &Branch) -> Result<Place, NoMemory>
    requires name { length path.now + length (branch_name else_name (branch_of branch.now)) < PATH_LIMIT }
    requires set { length path.now + 5 ≤ PATH_LIMIT }
    ensures { IfOk result (λ made. place_terms made
        ≡ child path.now (branch_name else_name (branch_of branch.now)) (where_not_found path.now)) }
{
    let name = named(alloc, &branch.label, Generated::Else)?;
    let added = where_not_found(alloc, path)?;
    Place::child(alloc, path, name, added)
}
