// Whether a part has the truth still that is kept of it, asked without a walk.
ghost use Rattle.std.specs.Prelude.{◌≡◌, ◌<◌, [], length, None, IsTrue, IfSome};
ghost use Rattle.px_value.specs.Truth.{truth_of};
ghost use Rattle.px_flat.specs.Flat.{plan_of};
ghost use Rattle.px_flat.specs.NumberedData.{expr_data};
ghost use Rattle.px_flat.specs.Within.{IsWithin};
ghost use Rattle.px_flat.specs.Layout.{all_cells};
ghost use Rattle.px_cached.specs.Still.{HoldsValue, IsAsking, IsLastRead, IsSourceOf, IsStill, value_now};

use crate::part::Part;
use px_cells::Cells;
use px_core::BinaryOp;
use px_event::Values;
use px_flat::{Flat, NumberedExpr};
use px_lookup::{LookState, Reports};
use px_value::{Value, compare};
use std::alloc::Global;

/// What is asked of parts: a plan's tables, the present cells and reports, and the parts of its conditions with the truths
/// that are kept.
#[derive(Drop)]
pub(crate) struct Asker<'a> {
    pub(crate) flat: &'a Flat,
    pub(crate) cells: &'a Cells,
    pub(crate) reports: &'a Reports,
    pub(crate) parts: &'a [Part],
    pub(crate) truths: &'a [Option<bool>],
}

/// What was last reported under a lookup name, without arguments.
#[derive(Drop)]
pub(crate) struct LastRead {
    pub(crate) lookup: u32,
    pub(crate) value: Value,
}

/// What was last reported under the lookup name that is the source of this number. None says nothing.
pub(crate) fn last_read(alloc: Global, asker: &Asker<'_>, source: u32) -> Option<LastRead>
    ensures last { IfSome result (IsLastRead asker.now) }
    ensures source { IfSome result (λ last. IsSourceOf (plan_of asker.now.flat.now) source last.lookup) }
{
    let lookup = lookup_of(asker.flat, source)?;
    let Ok(name) = asker.flat.lookup_name(lookup).copy(alloc) else {
        return None;
    };
    let value = match asker
        .reports
        .last(&LookState::new(name, Values::from(Vec::new(alloc))))
    {
        Some(value) => value.copy(alloc),
        None => Ok(Value::Unknown),
    };
    match value {
        Ok(value) => Some(LastRead { lookup, value }),
        Err(_) => None,
    }
}

// The lookup name that a source is without a tolerance.
fn lookup_of(flat: &Flat, source: u32) -> Option<u32>
    ensures { IfSome result (IsSourceOf (plan_of flat.now) source) }
{
    let latched = flat
        .tolerances()
        .len()
        .checked_mul(flat.lookups() as usize)?;
    let first = latched.checked_add(flat.all_cells() as usize)?;
    let lookup = (source as usize).checked_sub(first)?;
    if lookup < flat.lookups() as usize {
        Some(lookup as u32)
    } else {
        None
    }
}

/// Whether a part is a comparison of two values that are at hand, and has its kept truth now. False says nothing.
pub(crate) fn is_still(asker: &Asker<'_>, last: &Option<LastRead>, part: u32) -> bool
    requires asking { IsAsking asker.now }
    requires last { IfSome last.now (IsLastRead asker.now) }
    requires part { part < length asker.now.parts.now }
    ensures { IsTrue result → IsStill asker.now part }
{
    let Part::Whole(
        NumberedExpr::Binary {
            op: BinaryOp::Compare(op),
            left,
            right,
        },
    ) = &asker.parts[part as usize]
    else {
        return false;
    };
    match (at_hand(asker, last, left), at_hand(asker, last, right)) {
        (Some(left), Some(right)) => {
            is_truth(&compare(*op, left, right), asker.truths[part as usize])
        }
        _ => false,
    }
}

// The value of an expression where that is a constant, what a cell holds, or what was last read. None says nothing.
fn at_hand<'a>(
    asker: &Asker<'a>,
    last: &'a Option<LastRead>,
    expr: &'a NumberedExpr,
) -> Option<&'a Value>
    requires asking { IsAsking asker.now }
    requires last { IfSome last.now (IsLastRead asker.now) }
    requires within { IsWithin (plan_of asker.now.flat.now) (expr_data expr.now) }
    ensures { IfSome result (λ value. value.now ≡ value_now asker.now (expr_data expr.now)) }
{
    match expr {
        NumberedExpr::Literal(value) => Some(value),
        NumberedExpr::Look {
            lookup,
            args,
            tolerance,
        } => match last {
            Some(last) if is_last(last, *lookup, args, *tolerance) => Some(&last.value),
            _ => None,
        },
        _ => match cell_of(asker.flat, expr) {
            Some(cell) => Some(asker.cells.get(cell)),
            None => None,
        },
    }
}

// The cell that holds the value of an expression. None says nothing.
fn cell_of(flat: &Flat, expr: &NumberedExpr) -> Option<u32>
    requires { IsWithin (plan_of flat.now) (expr_data expr.now) }
    ensures within { IfSome result (λ cell. cell < all_cells (plan_of flat.now)) }
    ensures holds { IfSome result (HoldsValue (plan_of flat.now) (expr_data expr.now)) }
{
    match expr {
        NumberedExpr::Variable(cell) => Some(*cell),
        NumberedExpr::StateOf(node) => Some(flat.state_cell(*node)),
        NumberedExpr::OutcomeOf(node) => Some(flat.outcome_cell(*node)),
        NumberedExpr::FailureOf(node) => Some(flat.failure_cell(*node)),
        NumberedExpr::HandleOf(node) => Some(flat.handle_cell(*node)),
        NumberedExpr::Acknowledged(node) => Some(flat.acknowledgement_cell(*node)),
        _ => None,
    }
}

// Whether a lookup reads what was last read.
fn is_last(last: &LastRead, lookup: u32, args: &[NumberedExpr], tolerance: Option<u32>) -> bool
    ensures { IsTrue result → (lookup ≡ last.now.lookup) × (args.now ≡ []) × (tolerance ≡ None) }
{
    lookup == last.lookup && args.is_empty() && tolerance.is_none()
}

fn is_truth(value: &Value, truth: Option<bool>) -> bool
    ensures { IsTrue result → truth ≡ truth_of value.now }
{
    match (value, truth) {
        (Value::Boolean(value), Some(truth)) => *value == truth,
        (Value::Boolean(_), None) => false,
        (_, truth) => truth.is_none(),
    }
}
