// The table of derived forms, a row each: UncheckedSequence, Sequence, Try, `if`, `while` and `for`.
ghost use Rattle.std.specs.Prelude.{◌≡◌, ◌+◌, ◌<◌, ◌≤◌, ◌∷◌, [], length, map, Some, IfOk, OnOk};
ghost use Rattle.px_core.specs.Expr.{Binary as BinaryTerm, Unary as UnaryTerm, Var as VarTerm, term_in};
ghost use Rattle.px_value.specs.Path.{below};
ghost use Rattle.px_core.specs.Plan.{Nothing, body_data, variable_data, trees_of};
ghost use Rattle.px_forms.specs.Adding.{nothing};
ghost use Rattle.px_forms.specs.Conditions.{none_given};
ghost use Rattle.px_forms.specs.Forms as rows;
ghost use Rattle.px_core.specs.Defaults.{default_priority};
ghost use Rattle.px_forms.specs.Joining.{all, some};
ghost use Rattle.px_forms.specs.Names.{generated, loop_name, step_name};
ghost use Rattle.px_forms.specs.Nodes.{alone, before, child};
ghost use Rattle.px_forms.specs.Placed.{node_of, place_terms, tree_in};
ghost use Rattle.px_forms.specs.Shown.{added_terms, given_terms};

use crate::conditions::{Added, Given, add};
use crate::join::{Said, all, done, some};
use crate::names::Generated;
use crate::place::{Own, Place, both, child_path, one};
use px_core::{
    BinaryOp, Body, CoreNode, DEFAULT_PRIORITY, Expr, Kind, Target, UnaryOp, VarKind, Variable,
};
use px_value::{Name, NoMemory, Outcome, PATH_LIMIT, Path, Value};
use std::alloc::Global;

/// UncheckedSequence: that the child before, at this path, is done adds to the Start.
pub fn after(alloc: Global, path: &Path) -> Result<Box<Added>, NoMemory>
    ensures { IfOk result (λ made. added_terms made.value ≡ rows.after (Some path.now)) }
{
    let added = Added {
        start: Some(done(alloc, path)?),
        skip: None,
    };
    Ok(Box::new(alloc, added)?)
}

/// Sequence: that no child has failed adds to the Invariant.
pub fn sequence(alloc: Global, paths: &[Path], given: &mut Given) -> Result<(), NoMemory>
    ensures { OnOk result (given_terms given.new ≡ rows.sequence paths.now (given_terms given.old)) }
{
    let failed = some(alloc, Said::Ended(Outcome::Failure), paths)?;
    let none = Expr::unary(alloc, UnaryOp::Not, failed)?;
    add(alloc, BinaryOp::And, &mut given.invariant, none)
}

/// Try: the End, where none is given, is that some child has won or all are done; that some child has won adds to Post.
pub fn tries(alloc: Global, paths: &[Path], given: &mut Given) -> Result<(), NoMemory>
    ensures { OnOk result (given_terms given.new ≡ rows.try paths.now (given_terms given.old)) }
{
    if given.end.is_none() {
        given.end = Some(won_or_done(alloc, paths)?);
    }
    let won = some(alloc, Said::Ended(Outcome::Success), paths)?;
    add(alloc, BinaryOp::And, &mut given.post, won)
}

/// Some child has won, or all are done.
fn won_or_done(alloc: Global, paths: &[Path]) -> Result<Box<Expr>, NoMemory>
    ensures { IfOk result (λ made. term_in made
        ≡ BinaryTerm BinaryOp.Or (some (map rows.won paths.now)) (all (map rows.done paths.now))) }
{
    let won = some(alloc, Said::Ended(Outcome::Success), paths)?;
    let done = all(alloc, Said::Done, paths)?;
    Expr::binary(alloc, BinaryOp::Or, won, done)
}

// What an `if`, a `while` and the loop of a `for` have in common; each path is that of their List.

/// What the test was found to be.
fn test_of(alloc: Global, path: &Path) -> Result<Box<Expr>, NoMemory>
    ensures { IfOk result (λ made. term_in made ≡ rows.test_of path.now) }
{
    let name = Generated::Test.name(alloc)?;
    Expr::variable(alloc, path, &name)
}

/// The test was not found true.
fn not_found(alloc: Global, path: &Path) -> Result<Box<Expr>, NoMemory>
    requires { length path.now + 5 ≤ PATH_LIMIT }
    ensures { IfOk result (λ made. term_in made ≡ rows.not_found path.now) }
{
    let set = child_path(alloc, path, Generated::Set)?;
    let name = Generated::Test.name(alloc)?;
    fails_once(alloc, &set, path, &name)
}

/// The node at the path `set` is done, and the variable is true.
fn holds_once(alloc: Global, set: &Path, owner: &Path, name: &Name) -> Result<Box<Expr>, NoMemory>
    ensures { IfOk result (λ made. term_in made
        ≡ BinaryTerm BinaryOp.And (rows.done set.now) (VarTerm owner.now name.now)) }
{
    let done = done(alloc, set)?;
    Expr::binary(
        alloc,
        BinaryOp::And,
        done,
        Expr::variable(alloc, owner, name)?,
    )
}

/// The node at the path `set` is done, and the variable isn't true.
fn fails_once(alloc: Global, set: &Path, owner: &Path, name: &Name) -> Result<Box<Expr>, NoMemory>
    ensures { IfOk result (λ made. term_in made
        ≡ BinaryTerm BinaryOp.And (rows.done set.now) (UnaryTerm UnaryOp.Not (VarTerm owner.now name.now))) }
{
    let done = done(alloc, set)?;
    let not = Expr::unary(alloc, UnaryOp::Not, Expr::variable(alloc, owner, name)?)?;
    Expr::binary(alloc, BinaryOp::And, done, not)
}

/// That the test was found true, and that it was not.
#[derive(Drop)]
struct Findings {
    found: Box<Expr>,
    not_found: Box<Expr>,
}

impl Findings {
    /// Both, with one path of `#set` and one name of `#test`.
    fn of(alloc: Global, path: &Path) -> Result<Findings, NoMemory>
        requires { length path.now + 5 ≤ PATH_LIMIT }
        ensures found { IfOk result (λ made. term_in made.found ≡ rows.found path.now) }
        ensures not_found { IfOk result (λ made. term_in made.not_found ≡ rows.not_found path.now) }
    {
        let set = child_path(alloc, path, Generated::Set)?;
        let name = Generated::Test.name(alloc)?;
        Ok(Findings {
            found: holds_once(alloc, &set, path, &name)?,
            not_found: fails_once(alloc, &set, path, &name)?,
        })
    }
}

/// What is added to the branch of a test.
pub fn where_found(alloc: Global, path: &Path) -> Result<Box<Added>, NoMemory>
    requires { length path.now + 5 ≤ PATH_LIMIT }
    ensures { IfOk result (λ made. added_terms made.value ≡ rows.where_found path.now) }
{
    let Findings { found, not_found } = Findings::of(alloc, path)?;
    let added = Added {
        start: Some(found),
        skip: Some(not_found),
    };
    Ok(Box::new(alloc, added)?)
}

/// What is added to what stands after `else`.
pub fn where_not_found(alloc: Global, path: &Path) -> Result<Box<Added>, NoMemory>
    requires { length path.now + 5 ≤ PATH_LIMIT }
    ensures { IfOk result (λ made. added_terms made.value ≡ rows.where_not_found path.now) }
{
    let Findings { found, not_found } = Findings::of(alloc, path)?;
    let added = Added {
        start: Some(not_found),
        skip: Some(found),
    };
    Ok(Box::new(alloc, added)?)
}

/// An Assignment that the text doesn't have, of a scalar of the node `owner`.
fn assignment(
    alloc: Global,
    parent: &Path,
    name: Generated,
    given: Box<Given>,
    owner: &Path,
    variable: Name,
    value: Box<Expr>,
) -> Result<Box<CoreNode>, NoMemory>
    requires { length parent.now + length (generated name) < PATH_LIMIT }
    ensures { IfOk result (λ node. tree_in node
        ≡ alone (rows.assignment parent.now (generated name) (given_terms given.value) owner.now variable (term_in value))) }
{
    let target = Target {
        owner: owner.copy(alloc)?,
        name: variable,
        index: None,
    };
    let value = Box::into_inner(value);
    let body = Body::Assign { target, value };
    let own = Own::new(alloc, DEFAULT_PRIORITY, Vec::new(alloc), body)?;
    let place = Place::generated(alloc, parent, name, Added::nothing(alloc)?)?;
    place.node(alloc, Kind::Assignment, &[], given, own, Vec::new(alloc))
}

/// `#set`: the Assignment `#test = isKnown(t) && t`.
fn set(alloc: Global, path: &Path, test: Box<Expr>) -> Result<Box<CoreNode>, NoMemory>
    requires { length path.now + 5 ≤ PATH_LIMIT }
    ensures { IfOk result (λ node. tree_in node ≡ alone (rows.set path.now (term_in test))) }
{
    let given = Given::none(alloc)?;
    let variable = Generated::Test.name(alloc)?;
    let value = is_true(alloc, test)?;
    assignment(alloc, path, Generated::Set, given, path, variable, value)
}

/// `isKnown(t) && t`
fn is_true(alloc: Global, test: Box<Expr>) -> Result<Box<Expr>, NoMemory>
    ensures { IfOk result (λ made. term_in made
        ≡ BinaryTerm BinaryOp.And (UnaryTerm UnaryOp.IsKnown (term_in test)) (term_in test)) }
{
    let copy = test.boxed_copy(alloc)?;
    let known = Expr::unary(alloc, UnaryOp::IsKnown, copy)?;
    Expr::binary(alloc, BinaryOp::And, known, test)
}

/// A List that keeps a test, with `#set` before the other children, which stand at these paths.
fn tested(
    alloc: Global,
    place: Place,
    given: Box<Given>,
    test: Box<Expr>,
    mut paths: Vec<Path>,
    children: Vec<CoreNode>,
) -> Result<Box<CoreNode>, NoMemory>
    requires { length place.path + 5 ≤ PATH_LIMIT }
    ensures { IfOk result (λ node. tree_in node ≡ alone
        (rows.tested (place_terms place) (given_terms given.value) (term_in test) paths.items (trees_of children.items))) }
{
    let children = with_set(alloc, &place.path, test, children)?;
    paths.insert(0, child_path(alloc, &place.path, Generated::Set)?)?;
    let own = testing(alloc)?;
    place.node(alloc, Kind::List, &paths, given, own, children)
}

/// `#set`, and the other children behind it.
fn with_set(
    alloc: Global,
    path: &Path,
    test: Box<Expr>,
    mut others: Vec<CoreNode>,
) -> Result<Vec<CoreNode>, NoMemory>
    requires { length path.now + 5 ≤ PATH_LIMIT }
    ensures { IfOk result (λ children. trees_of children.items
        ≡ before (rows.set path.now (term_in test)) (trees_of others.items)) }
{
    let set = set(alloc, path, test)?;
    others.insert(0, Box::into_inner(set))?;
    Ok(others)
}

/// What the List of a test has: the variable that keeps it.
fn testing(alloc: Global) -> Result<Box<Own>, NoMemory>
    ensures priority { IfOk result (λ own. own.value.priority ≡ default_priority) }
    ensures variables { IfOk result (λ own. map variable_data own.value.variables.items ≡ rows.test_variable ∷ []) }
    ensures body { IfOk result (λ own. body_data own.value.body ≡ Nothing) }
{
    let variable = Variable {
        name: Generated::Test.name(alloc)?,
        kind: VarKind::Boolean,
        size: None,
        init: Vec::new(alloc),
    };
    Own::new(
        alloc,
        DEFAULT_PRIORITY,
        one(alloc, variable)?,
        Body::Nothing,
    )
}

/// `if (t) A else B`: the children are A and, where there is an else, B.
pub fn conditional(
    alloc: Global,
    place: Place,
    test: Box<Expr>,
    paths: Vec<Path>,
    children: Vec<CoreNode>,
) -> Result<Box<CoreNode>, NoMemory>
    requires { length place.path + 5 ≤ PATH_LIMIT }
    ensures { IfOk result (λ node. tree_in node ≡ alone
        (rows.conditional (place_terms place) (term_in test) paths.items (trees_of children.items))) }
{
    tested(alloc, place, Given::none(alloc)?, test, paths, children)
}

/// `while (t) A`: the child is A, with others behind it in a `for`.
pub fn repeated(
    alloc: Global,
    place: Place,
    test: Box<Expr>,
    paths: Vec<Path>,
    children: Vec<CoreNode>,
) -> Result<Box<CoreNode>, NoMemory>
    requires { length place.path + 5 ≤ PATH_LIMIT }
    ensures { IfOk result (λ node. tree_in node ≡ alone
        (rows.repeated (place_terms place) (term_in test) paths.items (trees_of children.items))) }
{
    let given = repeating(alloc, &place.path)?;
    tested(alloc, place, given, test, paths, children)
}

/// The conditions of the List at a path: it repeats where the test was found true.
fn repeating(alloc: Global, path: &Path) -> Result<Box<Given>, NoMemory>
    ensures { IfOk result (λ made. given_terms made.value
        ≡ record none_given { repeat = Some (rows.test_of path.now) }) }
{
    let test = test_of(alloc, path)?;
    let mut given = Given::none(alloc)?;
    given.repeat = Some(test);
    Ok(given)
}

/// The conditions of `#step`: it starts once A is done, where the test was found true, and is skipped where it was not.
fn step_given(alloc: Global, path: &Path, body: &Path) -> Result<Box<Given>, NoMemory>
    requires { length path.now + 5 ≤ PATH_LIMIT }
    ensures { IfOk result (λ made. given_terms made.value ≡ rows.step_given path.now body.now) }
{
    let start = done_and_found(alloc, path, body)?;
    let skip = not_found(alloc, path)?;
    let mut given = Given::none(alloc)?;
    given.start = Some(start);
    given.skip = Some(skip);
    Ok(given)
}

/// A is done, and the test was found true.
fn done_and_found(alloc: Global, path: &Path, body: &Path) -> Result<Box<Expr>, NoMemory>
    ensures { IfOk result
        (λ made. term_in made ≡ BinaryTerm BinaryOp.And (rows.done body.now) (rows.test_of path.now)) }
{
    let done = done(alloc, body)?;
    Expr::binary(alloc, BinaryOp::And, done, test_of(alloc, path)?)
}

/// `#step` of the loop at a path, whose variable the node `owner` has.
fn step(
    alloc: Global,
    path: &Path,
    body: &Path,
    owner: &Path,
    variable: &Name,
    next: Box<Expr>,
) -> Result<Box<CoreNode>, NoMemory>
    requires room { length path.now + 6 ≤ PATH_LIMIT }
    requires path { path.now ≡ rows.loop_path owner.now }
    ensures { IfOk result
        (λ node. tree_in node ≡ alone (rows.step owner.now body.now variable.now (term_in next))) }
{
    let given = step_given(alloc, path, body)?;
    let variable = variable.copy(alloc)?;
    assignment(alloc, path, Generated::Step, given, owner, variable, next)
}

/// The test and the step of a `for`, resolved.
#[derive(Drop)]
pub struct Turn {
    pub test: Box<Expr>,
    pub next: Box<Expr>,
}

/// `for (Integer i = c; t; u) A`: `inner` is where `#loop` stands, and A stands in it at the path `body`.
pub fn counted(
    alloc: Global,
    place: Place,
    inner: Place,
    variable: &Name,
    first: i32,
    turn: Turn,
    body: Path,
    branch: Box<CoreNode>,
) -> Result<Box<CoreNode>, NoMemory>
    requires room { length place.path + 12 ≤ PATH_LIMIT }
    requires inner { place_terms inner ≡ child place.path loop_name nothing }
    ensures { IfOk result (λ node. tree_in node ≡ alone (rows.counted (place_terms place) variable.now first
        (term_in turn.test) (term_in turn.next) body (node_of branch.value))) }
{
    let turns = turned(alloc, &place.path, inner, variable, turn, body, branch)?;
    let children = one(alloc, Box::into_inner(turns))?;
    let paths = one(alloc, child_path(alloc, &place.path, Generated::Loop)?)?;
    let own = counting(alloc, variable, first)?;
    let given = Given::none(alloc)?;
    place.node(alloc, Kind::List, &paths, given, own, children)
}

/// `#loop` in its place, with A and `#step`; the node `owner` has the variable.
fn turned(
    alloc: Global,
    owner: &Path,
    inner: Place,
    variable: &Name,
    turn: Turn,
    body: Path,
    branch: Box<CoreNode>,
) -> Result<Box<CoreNode>, NoMemory>
    requires room { length inner.path + 6 ≤ PATH_LIMIT }
    requires path { inner.path ≡ rows.loop_path owner.now }
    ensures { IfOk result (λ node. tree_in node ≡ alone (rows.repeated (place_terms inner) (term_in turn.test)
        (body ∷ below inner.path step_name ∷ [])
        (before (node_of branch.value) (alone (rows.step owner.now body variable.now (term_in turn.next)))))) }
{
    let Turn { test, next } = turn;
    let step = step(alloc, &inner.path, &body, owner, variable, next)?;
    let children = both(alloc, branch, step)?;
    let paths = turn_paths(alloc, &inner.path, body)?;
    repeated(alloc, inner, test, paths, children)
}

/// The paths of A and of `#step`.
fn turn_paths(alloc: Global, path: &Path, body: Path) -> Result<Vec<Path>, NoMemory>
    requires { length path.now + length step_name < PATH_LIMIT }
    ensures { IfOk result (λ paths. paths.items ≡ body ∷ below path.now step_name ∷ []) }
{
    // `#set` goes before them.
    let mut paths = Vec::with_capacity(alloc, 3)?;
    paths.push(body)?;
    paths.push(child_path(alloc, path, Generated::Step)?)?;
    Ok(paths)
}

/// What the List of a `for` has: its variable.
fn counting(alloc: Global, variable: &Name, first: i32) -> Result<Box<Own>, NoMemory>
    ensures priority { IfOk result (λ own. own.value.priority ≡ default_priority) }
    ensures variables { IfOk result (λ own.
        map variable_data own.value.variables.items ≡ rows.counter variable.now first ∷ []) }
    ensures body { IfOk result (λ own. body_data own.value.body ≡ Nothing) }
{
    let counter = Variable {
        name: variable.copy(alloc)?,
        kind: VarKind::Integer,
        size: None,
        init: one(alloc, Value::Integer(first))?,
    };
    Own::new(alloc, DEFAULT_PRIORITY, one(alloc, counter)?, Body::Nothing)
}
