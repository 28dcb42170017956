// The value of an expression whose variables, nodes and lookup names are numbers.
ghost use Rattle.std.specs.Prelude.{◌≡◌, length, map, IfOk};
ghost use Rattle.std.specs.Cow.{cow_value};
ghost use Rattle.std.specs.List.{All};
ghost use Rattle.px_flat.specs.Flat.{plan_of};
ghost use Rattle.px_flat.specs.Layout.{all_cells};
ghost use Rattle.px_flat.specs.Numbered.{numbered_value};
ghost use Rattle.px_flat.specs.NumberedData.{expr_data, in_turn};
ghost use Rattle.px_flat.specs.Within.{IsWithin, AreWithin};
ghost use Rattle.px_eval.specs.Meaning.{Means};

use crate::arrays::element;
use crate::lent::into_owned;
use crate::lookups::looked_up;
use crate::operators::{binary, unary};
use px_cells::Cells;
use px_event::Values;
use px_flat::{Flat, NumberedExpr};
use px_lookup::Reports;
use px_value::{NoMemory, Value};
use std::alloc::Global;
use std::borrow::Cow;

// The value, lent where something holds it. Calls go as deep as the expression does.
#[cycle(lent_value)]
fn lent_value<'a>(
    alloc: Global,
    flat: &'a Flat,
    cells: &'a Cells,
    reports: &'a Reports,
    expr: &'a NumberedExpr,
) -> Result<Cow<'a, Value>, NoMemory>
    requires within { IsWithin (plan_of flat.now) (expr_data expr.now) }
    requires cells { length cells.now.contents.values ≡ all_cells (plan_of flat.now) }
    ensures { IfOk result (λ value. cow_value value
        ≡ numbered_value (plan_of flat.now) cells.now.contents.values reports.now.reports (expr_data expr.now)) }
{
    Ok(match expr {
        NumberedExpr::Literal(value) => Cow::Borrowed(value),
        NumberedExpr::Variable(cell) => Cow::Borrowed(cells.get(*cell)),
        NumberedExpr::Element { first, size, index } => {
            let index = lent_value(alloc, flat, cells, reports, index)?;
            element(cells, *first, *size, index)
        }
        NumberedExpr::StateOf(node) => Cow::Borrowed(cells.get(flat.state_cell(*node))),
        NumberedExpr::OutcomeOf(node) => Cow::Borrowed(cells.get(flat.outcome_cell(*node))),
        NumberedExpr::FailureOf(node) => Cow::Borrowed(cells.get(flat.failure_cell(*node))),
        NumberedExpr::HandleOf(node) => Cow::Borrowed(cells.get(flat.handle_cell(*node))),
        NumberedExpr::Acknowledged(node) => {
            Cow::Borrowed(cells.get(flat.acknowledgement_cell(*node)))
        }
        NumberedExpr::Look {
            lookup,
            args,
            tolerance,
        } => {
            let args = each_value(alloc, flat, cells, reports, args)?;
            looked_up(alloc, reports, flat.lookup_name(*lookup), args, *tolerance)?
        }
        NumberedExpr::Unary { op, arg } => {
            let arg = lent_value(alloc, flat, cells, reports, arg)?;
            Cow::Owned(unary(*op, arg))
        }
        NumberedExpr::Binary { op, left, right } => {
            let left = lent_value(alloc, flat, cells, reports, left)?;
            let right = lent_value(alloc, flat, cells, reports, right)?;
            Cow::Owned(binary(alloc, *op, left, right)?)
        }
    })
}

// The values of a lookup's arguments.
#[cycle(lent_value)]
fn each_value(
    alloc: Global,
    flat: &Flat,
    cells: &Cells,
    reports: &Reports,
    exprs: &[NumberedExpr],
) -> Result<Values, NoMemory>
    requires within { AreWithin (plan_of flat.now) (in_turn (map expr_data exprs.now)) }
    requires cells { length cells.now.contents.values ≡ all_cells (plan_of flat.now) }
    ensures { IfOk result (λ values. values ≡ map
        (numbered_value (plan_of flat.now) cells.now.contents.values reports.now.reports) (map expr_data exprs.now)) }
{
    let mut values = Vec::with_capacity(alloc, exprs.len())?;
    for expr in exprs {
        let value = lent_value(alloc, flat, cells, reports, expr)?;
        values.push(into_owned(alloc, value)?)?;
    }
    Ok(Values::from(values))
}

/// The value of an expression of the plan in the present cells and reports (PLEXIL reference manual, "Expressions").
pub fn value_of(
    alloc: Global,
    flat: &Flat,
    cells: &Cells,
    reports: &Reports,
    expr: &NumberedExpr,
) -> Result<Value, NoMemory>
    requires within { IsWithin (plan_of flat.now) (expr_data expr.now) }
    requires cells { length cells.now.contents.values ≡ all_cells (plan_of flat.now) }
    ensures value { IfOk result (λ value. value
        ≡ numbered_value (plan_of flat.now) cells.now.contents.values reports.now.reports (expr_data expr.now)) }
    // In each world that the cells and reports may stand for, the plan's own expression has this value.
    ensures meaning { IfOk result
        (Means (plan_of flat.now) cells.now.contents.values reports.now.reports (expr_data expr.now)) }
{
    into_owned(alloc, lent_value(alloc, flat, cells, reports, expr)?)
}

/// The values of expressions of the plan, in their order.
pub fn values_of(
    alloc: Global,
    flat: &Flat,
    cells: &Cells,
    reports: &Reports,
    exprs: &[NumberedExpr],
) -> Result<Values, NoMemory>
    requires within { All (IsWithin (plan_of flat.now)) (map expr_data exprs.now) }
    requires cells { length cells.now.contents.values ≡ all_cells (plan_of flat.now) }
    ensures { IfOk result (λ values. values ≡ map
        (numbered_value (plan_of flat.now) cells.now.contents.values reports.now.reports) (map expr_data exprs.now)) }
{
    each_value(alloc, flat, cells, reports, exprs)
}
