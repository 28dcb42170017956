// Going into nodes that have branches: what is made on the way to a branch.
ghost use Rattle.std.specs.Prelude.{◌≡◌, ◌+◌, ◌<◌, ◌≤◌, get_or, max, length, IfOk, IfSome, OnOk};
ghost use Rattle.px_core.specs.Plan.{NoNode};
ghost use Rattle.px_syntax.specs.Block.{branch_of, guarded_of};
ghost use Rattle.px_syntax.specs.Expr.{term_of as text_of};
ghost use Rattle.px_forms.specs.Adding.{nothing};
ghost use Rattle.px_expand.specs.Chain.{branch_in, open_scope, stands, test_in};
ghost use Rattle.px_expand.specs.Core.{branch_name, for_scope, if_seen, loop_seen, while_scope};
ghost use Rattle.px_forms.specs.Forms.{loop_path, where_found};
ghost use Rattle.px_forms.specs.Names.{body_name, loop_name, then_name};
ghost use Rattle.px_forms.specs.Nodes.{child};
ghost use Rattle.px_expand.specs.Children.{names_of, paths_of};
ghost use Rattle.px_forms.specs.Placed.{place_terms};
ghost use Rattle.px_scope.specs.Resolving.{resolved};
ghost use Rattle.px_core.specs.Expr.{term_in};
ghost use Rattle.px_forms.specs.Shown.{added_terms};
ghost use Rattle.px_expand.specs.Size.{branch_reach, guarded_reach, through};

use crate::children::Listed;
use crate::entering::{enter_if, enter_loop};
use px_core::Expr;
use px_forms::{Added, Generated, Place, Turn, where_found};
use px_scope::{Scope, resolved};
use px_syntax::{Branch, Guarded, Identifier, SurfaceExpr};
use px_value::{Name, NoMemory, PATH_LIMIT, Path};
use std::alloc::Global;

/// What is made on the way to a guarded branch: the test, the paths of the children, and where the branch stands.
#[derive(Drop)]
pub(crate) struct Entered {
    pub(crate) test: Box<Expr>,
    pub(crate) paths: Vec<Path>,
    pub(crate) branch: Place,
}

/// Goes into an `if`; `behind` is the name of what stands behind its branch.
pub(crate) fn into_if(
    alloc: Global,
    scope: &mut Scope,
    place: &Place,
    guarded: &Guarded,
    behind: Option<Name>,
) -> Result<Entered, NoMemory>
    requires branch { length place.now.path + guarded_reach then_name (guarded_of guarded.now) ≤ PATH_LIMIT }
    requires behind { IfSome behind (λ name. length place.now.path + length name < PATH_LIMIT) }
    ensures scope { OnOk result (scope.new
        ≡ open_scope scope.old (place_terms place.now) (guarded_of guarded.now) behind) }
    ensures test { IfOk result (λ made. term_in made.test ≡ resolved
        (open_scope scope.old (place_terms place.now) (guarded_of guarded.now) behind) (test_in (guarded_of guarded.now))) }
    ensures paths { IfOk result (λ made. made.paths.items
        ≡ paths_of (if_seen place.now.path (branch_in (guarded_of guarded.now)) (stands behind NoNode))) }
    ensures branch { IfOk result (λ made. place_terms made.branch ≡ child place.now.path
        (branch_name then_name (branch_in (guarded_of guarded.now))) (where_found place.now.path)) }
{
    let listed = enter_if(alloc, scope, place, &guarded.branch, behind)?;
    let test = resolved(alloc, scope, &guarded.test)?;
    let branch = branch_place(alloc, &place.path, &listed)?;
    Ok(Entered {
        test,
        paths: listed.paths,
        branch,
    })
}

/// Goes into a `while`.
pub(crate) fn into_while(
    alloc: Global,
    scope: &mut Scope,
    place: &Place,
    guarded: &Guarded,
) -> Result<Entered, NoMemory>
    requires { length place.now.path + guarded_reach body_name (guarded_of guarded.now) ≤ PATH_LIMIT }
    ensures scope { OnOk result (scope.new
        ≡ while_scope scope.old (place_terms place.now) (branch_in (guarded_of guarded.now))) }
    ensures test { IfOk result (λ made. term_in made.test ≡ resolved
        (while_scope scope.old (place_terms place.now) (branch_in (guarded_of guarded.now)))
        (test_in (guarded_of guarded.now))) }
    ensures paths { IfOk result (λ made. made.paths.items
        ≡ paths_of (loop_seen place.now.path (branch_in (guarded_of guarded.now)))) }
    ensures branch { IfOk result (λ made. place_terms made.branch ≡ child place.now.path
        (branch_name body_name (branch_in (guarded_of guarded.now))) (where_found place.now.path)) }
{
    let listed = enter_loop(alloc, scope, place, &place.path, &guarded.branch, None)?;
    let test = resolved(alloc, scope, &guarded.test)?;
    let branch = branch_place(alloc, &place.path, &listed)?;
    Ok(Entered {
        test,
        paths: listed.paths,
        branch,
    })
}

/// What is made on the way to the branch of a `for`: where its loop stands, its test and step, and where the branch stands.
#[derive(Drop)]
pub(crate) struct EnteredFor {
    pub(crate) inner: Place,
    pub(crate) turn: Turn,
    pub(crate) branch: Place,
}

/// Goes into a `for`.
pub(crate) fn into_for(
    alloc: Global,
    scope: &mut Scope,
    place: &Place,
    variable: &Identifier,
    test: &SurfaceExpr,
    step: &SurfaceExpr,
    branch: &Branch,
) -> Result<EnteredFor, NoMemory>
    requires { length place.now.path + through loop_name (max 6 (branch_reach body_name (branch_of branch.now))) ≤ PATH_LIMIT }
    ensures scope { OnOk result (scope.new
        ≡ for_scope scope.old (place_terms place.now) variable.now.name (branch_of branch.now)) }
    ensures inner { IfOk result (λ made. place_terms made.inner ≡ child place.now.path loop_name nothing) }
    ensures test { IfOk result (λ made. term_in made.turn.test ≡ resolved
        (for_scope scope.old (place_terms place.now) variable.now.name (branch_of branch.now)) (text_of test.now)) }
    ensures next { IfOk result (λ made. term_in made.turn.next ≡ resolved
        (for_scope scope.old (place_terms place.now) variable.now.name (branch_of branch.now)) (text_of step.now)) }
    ensures branch { IfOk result (λ made. place_terms made.branch ≡ child (loop_path place.now.path)
        (branch_name body_name (branch_of branch.now)) (where_found (loop_path place.now.path))) }
{
    let inner = Place::generated(alloc, &place.path, Generated::Loop, Added::nothing(alloc)?)?;
    let listed = enter_for(alloc, scope, place, &inner.path, variable, branch)?;
    let turn = turn_of(alloc, scope, test, step)?;
    let branch = branch_place(alloc, &inner.path, &listed)?;
    Ok(EnteredFor {
        inner,
        turn,
        branch,
    })
}

/// Goes into a `for` whose loop stands at a path.
fn enter_for(
    alloc: Global,
    scope: &mut Scope,
    place: &Place,
    path: &Path,
    variable: &Identifier,
    branch: &Branch,
) -> Result<Listed, NoMemory>
    requires path { path.now ≡ loop_path place.now.path }
    requires room { length path.now + length (branch_name body_name (branch_of branch.now)) < PATH_LIMIT }
    ensures scope { OnOk result (scope.new
        ≡ for_scope scope.old (place_terms place.now) variable.now.name (branch_of branch.now)) }
    ensures names { IfOk result (λ listed. listed.names.items ≡ names_of (loop_seen path.now (branch_of branch.now))) }
    ensures paths { IfOk result (λ listed. listed.paths.items ≡ paths_of (loop_seen path.now (branch_of branch.now))) }
{
    enter_loop(alloc, scope, place, path, branch, Some(&variable.name))
}

/// The test and the step of a `for`, in the scope inside it.
fn turn_of(
    alloc: Global,
    scope: &Scope,
    test: &SurfaceExpr,
    step: &SurfaceExpr,
) -> Result<Turn, NoMemory>
    requires { 0 < length scope.now }
    ensures test { IfOk result (λ turn. term_in turn.test ≡ resolved scope.now (text_of test.now)) }
    ensures next { IfOk result (λ turn. term_in turn.next ≡ resolved scope.now (text_of step.now)) }
{
    Ok(Turn {
        test: resolved(alloc, scope, test)?,
        next: resolved(alloc, scope, step)?,
    })
}

/// Where the branch of a test stands, the first child of the node at a path.
fn branch_place(alloc: Global, path: &Path, children: &Listed) -> Result<Place, NoMemory>
    requires names { 0 < length children.now.names.items }
    requires paths { 0 < length children.now.paths.items }
    requires set { length path.now + 5 ≤ PATH_LIMIT }
    ensures name { IfOk result (λ made. made.name ≡ get_or children.now.names.items 0 made.name) }
    ensures path { IfOk result (λ made. made.path ≡ get_or children.now.paths.items 0 made.path) }
    ensures added { IfOk result (λ made. added_terms made.added.value ≡ where_found path.now) }
{
    let added = where_found(alloc, path)?;
    Place::of(alloc, &children.paths[0], &children.names[0], added)
}
