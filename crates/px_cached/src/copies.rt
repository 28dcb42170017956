// Copies of numbered expressions.
ghost use Rattle.std.specs.Prelude.{◌≡◌, map, IfOk};
ghost use Rattle.px_flat.specs.NumberedData.{expr_data};

use px_flat::NumberedExpr;
use px_value::NoMemory;
use std::alloc::Global;

/// An equal expression.
#[cycle(copy)]
pub(crate) fn copy(alloc: Global, expr: &NumberedExpr) -> Result<NumberedExpr, NoMemory>
    ensures { IfOk result (λ copy. expr_data copy ≡ expr_data expr.now) }
{
    Ok(match expr {
        NumberedExpr::Literal(value) => NumberedExpr::Literal(value.copy(alloc)?),
        NumberedExpr::Variable(cell) => NumberedExpr::Variable(*cell),
        NumberedExpr::Element { first, size, index } => NumberedExpr::Element {
            first: *first,
            size: *size,
            index: Box::new(alloc, copy(alloc, index)?)?,
        },
        NumberedExpr::StateOf(node) => NumberedExpr::StateOf(*node),
        NumberedExpr::OutcomeOf(node) => NumberedExpr::OutcomeOf(*node),
        NumberedExpr::FailureOf(node) => NumberedExpr::FailureOf(*node),
        NumberedExpr::HandleOf(node) => NumberedExpr::HandleOf(*node),
        NumberedExpr::Acknowledged(node) => NumberedExpr::Acknowledged(*node),
        NumberedExpr::Look {
            lookup,
            args,
            tolerance,
        } => NumberedExpr::Look {
            lookup: *lookup,
            args: copy_each(alloc, args)?,
            tolerance: *tolerance,
        },
        NumberedExpr::Unary { op, arg } => NumberedExpr::Unary {
            op: *op,
            arg: Box::new(alloc, copy(alloc, arg)?)?,
        },
        NumberedExpr::Binary { op, left, right } => NumberedExpr::Binary {
            op: *op,
            left: Box::new(alloc, copy(alloc, left)?)?,
            right: Box::new(alloc, copy(alloc, right)?)?,
        },
    })
}

// Equal expressions, in their order.
#[cycle(copy)]
fn copy_each(alloc: Global, exprs: &[NumberedExpr]) -> Result<Vec<NumberedExpr>, NoMemory>
    ensures { IfOk result (λ copies. map expr_data copies.items ≡ map expr_data exprs.now) }
{
    let mut copies = Vec::with_capacity(alloc, exprs.len())?;
    for expr in exprs {
        copies.push(copy(alloc, expr)?)?;
    }
    Ok(copies)
}
