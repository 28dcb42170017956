// The core plan of a tree.
ghost use Rattle.std.specs.Prelude.{◌≡◌, ◌≤◌, false, nat_le, IfOk, IfErr, OnOk};
ghost use Rattle.px_core.specs.Plan.{count_of, tree_of};
ghost use Rattle.px_syntax.specs.Block.{block_of};
ghost use Rattle.px_syntax.specs.Plan.{tree_of_surface};
ghost use Rattle.px_expand.specs.Bound.{is_too_large};
ghost use Rattle.px_expand.specs.Core.{core, root_place};
ghost use Rattle.px_forms.specs.Placed.{place_terms};
ghost use Rattle.px_expand.specs.Size.{block_nodes, longest};
ghost use Rattle.px_expand.specs.Verdict.{IsChecked, IsExpanded, IsRefused};

use crate::block::block;
use crate::count::block_nodes;
use crate::names::{name_length, named};
use crate::reach::block_reach;
use px_core::Plan;
use px_forms::{Added, Generated, Place};
use px_scope::Scope;
use px_syntax::{ExpandFault, Identifier, Surface};
use px_value::{NoMemory, PATH_LIMIT, Path};
use std::alloc::Global;

/// The most nodes that a plan has.
pub const NODE_LIMIT: u32 = 4096;

/// The core plan of a tree: derived forms are Lists, conditions and assignments, names are paths, and each condition that
/// isn't given is its default. It is refused where `check_size` refuses, before any of it is made.
pub fn expand(alloc: Global, tree: &Surface) -> Result<Plan, ExpandFault>
    requires { IsChecked (tree_of_surface tree.now) }
    ensures ok { IfOk result (λ plan. IsExpanded (tree_of_surface tree.now) plan) }
    ensures fault { IfErr result (λ fault. IsRefused (tree_of_surface tree.now) fault) }
{
    check_size(alloc, tree)?;
    Ok(core(alloc, tree)?)
}

/// How many nodes the core plan of a tree has. The plan isn't made for it.
///
/// `TooMany` comes exactly where the core plan would have over 4,096 nodes or a path of over 5,000 bytes; `nodes` is the
/// number of its nodes.
pub fn check_size(_alloc: Global, tree: &Surface) -> Result<u32, ExpandFault>
    ensures nodes { IfOk result (λ nodes. nodes ≡ count_of (core (tree_of_surface tree.now))) }
    ensures within { OnOk result (is_too_large (core (tree_of_surface tree.now)) ≡ false) }
    ensures fault { IfErr result (λ fault. IsRefused (tree_of_surface tree.now) fault) }
{
    let nodes = block_nodes(&tree.root);
    if nodes > NODE_LIMIT || !has_short_paths(tree) {
        return Err(ExpandFault::TooMany { nodes });
    }
    Ok(nodes)
}

/// No path has over 5,000 bytes.
fn has_short_paths(tree: &Surface) -> bool
    requires { block_nodes (block_of tree.now.root) ≤ 4096 }
    ensures { result ≡ nat_le (longest (tree_of_surface tree.now)) 5000 }
{
    let name = name_length(&tree.label, Generated::Action(1));
    name.saturating_add(block_reach(&tree.root)) <= PATH_LIMIT
}

/// The core plan of a tree with short paths.
fn core(alloc: Global, tree: &Surface) -> Result<Plan, NoMemory>
    requires { longest (tree_of_surface tree.now) ≤ PATH_LIMIT }
    ensures { IfOk result (λ plan. tree_of plan ≡ core (tree_of_surface tree.now)) }
{
    let place = root_place(alloc, &tree.label)?;
    let mut scope = Scope::new(alloc);
    let root = block(alloc, &mut scope, place, &tree.root)?;
    Ok(Plan {
        root: Box::into_inner(root),
    })
}

/// Where the root with this label stands.
fn root_place(alloc: Global, label: &Option<Identifier>) -> Result<Place, NoMemory>
    ensures { IfOk result (λ made. place_terms made ≡ root_place label.now) }
{
    let name = named(alloc, label, Generated::Action(1))?;
    Ok(Place {
        path: Path::root(alloc, &name)?,
        name,
        added: Added::nothing(alloc)?,
    })
}
