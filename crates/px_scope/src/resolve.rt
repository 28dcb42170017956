// Expressions with paths in place of names. Each is made in the box that the expression round it holds.
ghost use Rattle.std.specs.Prelude.{◌≡◌, ◌<◌, length, map, IfOk};
ghost use Rattle.px_syntax.specs.Expr.{in_turn, term_of as text_of};
ghost use Rattle.px_core.specs.Expr.{Cell as CellTerm, term_in, term_of};
ghost use Rattle.px_scope.specs.Resolving.{attribute_term, resolved, resolved_each};

use crate::scope::Scope;
use crate::words::{
    binary_function_op, binary_op, enumerated_value, literal_value, look_word, unary_function_op,
    unary_op,
};
use px_core::Expr;
use px_syntax::{Attribute, SurfaceExpr};
use px_value::{Name, NoMemory, Path};
use std::alloc::Global;

/// An expression of the text in its scope.
#[cycle(resolved)]
pub fn resolved(alloc: Global, scope: &Scope, expr: &SurfaceExpr) -> Result<Box<Expr>, NoMemory>
    requires { 0 < length scope.now }
    ensures { IfOk result (λ made. term_in made ≡ resolved scope.now (text_of expr.now)) }
{
    match expr {
        SurfaceExpr::Literal { value, .. } => Expr::literal(alloc, literal_value(alloc, value)?),
        SurfaceExpr::Enumerated { value, .. } => Expr::literal(alloc, enumerated_value(*value)),
        SurfaceExpr::Variable(name) => Expr::variable(alloc, scope.owner(&name.name), &name.name),
        SurfaceExpr::Element { array, index } => {
            let index = resolved(alloc, scope, index)?;
            element(alloc, scope.owner(&array.name), &array.name, index)
        }
        SurfaceExpr::Attribute { node, attribute } => {
            attribute_of(alloc, *attribute, scope.node(node).copy(alloc)?)
        }
        SurfaceExpr::Look {
            word,
            name,
            args,
            tolerance,
            ..
        } => {
            let look = Expr::Look {
                word: look_word(*word),
                name: name.name.copy(alloc)?,
                args: resolved_each(alloc, scope, args)?,
                tolerance: tolerance.map(|allowed| allowed.distance),
            };
            Ok(Box::new(alloc, look)?)
        }
        SurfaceExpr::UnaryCall {
            function,
            argument,
            ..
        } => {
            let argument = resolved(alloc, scope, argument)?;
            Expr::unary(alloc, unary_function_op(*function), argument)
        }
        SurfaceExpr::BinaryCall {
            function,
            first,
            second,
            ..
        } => {
            let first = resolved(alloc, scope, first)?;
            let second = resolved(alloc, scope, second)?;
            Expr::binary(alloc, binary_function_op(*function), first, second)
        }
        SurfaceExpr::Unary {
            operator,
            operand,
            ..
        } => {
            let operand = resolved(alloc, scope, operand)?;
            Expr::unary(alloc, unary_op(*operator), operand)
        }
        SurfaceExpr::Binary {
            operator,
            left,
            right,
        } => {
            let left = resolved(alloc, scope, left)?;
            let right = resolved(alloc, scope, right)?;
            Expr::binary(alloc, binary_op(*operator), left, right)
        }
    }
}

/// Expressions of the text, in their order.
#[cycle(resolved)]
pub(crate) fn resolved_each(
    alloc: Global,
    scope: &Scope,
    exprs: &[SurfaceExpr],
) -> Result<Vec<Expr>, NoMemory>
    requires { 0 < length scope.now }
    ensures { IfOk result
        (λ made. map term_of made.items ≡ resolved_each scope.now (in_turn (map text_of exprs.now))) }
{
    let mut made = Vec::with_capacity(alloc, exprs.len())?;
    for expr in exprs {
        made.push(Box::into_inner(resolved(alloc, scope, expr)?))?;
    }
    Ok(made)
}

/// An element of the array that the node at a path declares.
fn element(
    alloc: Global,
    owner: &Path,
    name: &Name,
    index: Box<Expr>,
) -> Result<Box<Expr>, NoMemory>
    ensures { IfOk result (λ made. term_in made ≡ CellTerm owner.now name.now (term_in index)) }
{
    let element = Expr::Cell {
        owner: owner.copy(alloc)?,
        name: name.copy(alloc)?,
        index,
    };
    Ok(Box::new(alloc, element)?)
}

/// An attribute of the node at a path.
fn attribute_of(alloc: Global, attribute: Attribute, path: Path) -> Result<Box<Expr>, NoMemory>
    ensures { IfOk result (λ made. term_in made ≡ attribute_term attribute path) }
{
    let attribute = match attribute {
        Attribute::State => Expr::StateOf(path),
        Attribute::Outcome => Expr::OutcomeOf(path),
        Attribute::Failure => Expr::FailureOf(path),
        Attribute::CommandHandle => Expr::HandleOf(path),
    };
    Ok(Box::new(alloc, attribute)?)
}
