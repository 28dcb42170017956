// Assignments, commands and updates.
ghost use Rattle.std.specs.Prelude.{◌≡◌, ◌<◌, length, option_map, map, IfOk};
ghost use Rattle.std.specs.Option.{option_copied};
ghost use Rattle.px_syntax.specs.Block.{body_of as text_of, target_data as text_target, call_data, pair_data as text_pair};
ghost use Rattle.px_syntax.specs.Expr.{term_of as expr_of};
ghost use Rattle.px_core.specs.Expr.{term_of};
ghost use Rattle.px_core.specs.Plan.{body_data, pair_data, target_data};
ghost use Rattle.px_scope.specs.Actions.{body_of, command_of, kind_of, pair_of, target_of};
ghost use Rattle.px_scope.specs.Resolving.{resolved};

use crate::resolve::{resolved, resolved_each};
use crate::scope::Scope;
use px_core::{Body, Expr, Kind, Pair, Target};
use px_syntax::{Call, SurfaceExpr};
use px_value::NoMemory;
use std::alloc::Global;

/// The kind of the node that an action is.
pub fn kind_of(body: &px_syntax::Body) -> Kind
    ensures { result ≡ kind_of (text_of body.now) }
{
    match body {
        px_syntax::Body::Assign { .. } => Kind::Assignment,
        px_syntax::Body::CallInto { .. } | px_syntax::Body::Call(_) => Kind::Command,
        px_syntax::Body::Update { .. } => Kind::Update,
        px_syntax::Body::Block(_)
        | px_syntax::Body::If { .. }
        | px_syntax::Body::While(_)
        | px_syntax::Body::For { .. } => Kind::List,
    }
}

/// What a simple action does, in the scope inside its node.
pub fn body_of(alloc: Global, scope: &Scope, body: &px_syntax::Body) -> Result<Body, NoMemory>
    requires { 0 < length scope.now }
    ensures { IfOk result (λ made. body_data made ≡ body_of scope.now (text_of body.now)) }
{
    match body {
        px_syntax::Body::Assign { target, value } => {
            let value = resolved(alloc, scope, value)?;
            let target = target_of(alloc, scope, target)?;
            Ok(Body::Assign {
                target,
                value: Box::into_inner(value),
            })
        }
        px_syntax::Body::CallInto { target, call } => command(alloc, scope, call, Some(target)),
        px_syntax::Body::Call(call) => command(alloc, scope, call, None),
        px_syntax::Body::Update { pairs, .. } => Ok(Body::Update {
            pairs: pairs_of(alloc, scope, pairs)?,
        }),
        px_syntax::Body::Block(_)
        | px_syntax::Body::If { .. }
        | px_syntax::Body::While(_)
        | px_syntax::Body::For { .. } => Ok(Body::Nothing),
    }
}

fn target_of(alloc: Global, scope: &Scope, target: &px_syntax::Target) -> Result<Target, NoMemory>
    requires { 0 < length scope.now }
    ensures { IfOk result (λ made. target_data made ≡ target_of scope.now (text_target target.now)) }
{
    Ok(Target {
        owner: scope.owner(&target.name.name).copy(alloc)?,
        name: target.name.name.copy(alloc)?,
        index: index_of(alloc, scope, &target.index)?,
    })
}

fn index_of(
    alloc: Global,
    scope: &Scope,
    index: &Option<SurfaceExpr>,
) -> Result<Option<Expr>, NoMemory>
    requires { 0 < length scope.now }
    ensures { IfOk result (λ made. option_map term_of made ≡ option_map (resolved scope.now) (option_map expr_of index.now)) }
{
    Ok(match index {
        Some(index) => Some(Box::into_inner(resolved(alloc, scope, index)?)),
        None => None,
    })
}

fn command(
    alloc: Global,
    scope: &Scope,
    call: &Call,
    written: Option<&px_syntax::Target>,
) -> Result<Body, NoMemory>
    requires { 0 < length scope.now }
    ensures { IfOk result (λ made. body_data made
        ≡ command_of scope.now (call_data call.now)
        (option_map (target_of scope.now) (option_map text_target (option_copied written.entry)))) }
{
    Ok(Body::Command {
        name: call.name.name.copy(alloc)?,
        args: resolved_each(alloc, scope, &call.args)?,
        result: match written {
            Some(target) => Some(target_of(alloc, scope, target)?),
            None => None,
        },
    })
}

fn pairs_of(alloc: Global, scope: &Scope, pairs: &[px_syntax::Pair]) -> Result<Vec<Pair>, NoMemory>
    requires { 0 < length scope.now }
    ensures { IfOk result (λ made. map pair_data made.items
        ≡ map (pair_of scope.now) (map text_pair pairs.now)) }
{
    let mut made = Vec::with_capacity(alloc, pairs.len())?;
    for pair in pairs {
        made.push(Pair {
            name: pair.name.name.copy(alloc)?,
            value: Box::into_inner(resolved(alloc, scope, &pair.value)?),
        })?;
    }
    Ok(made)
}
