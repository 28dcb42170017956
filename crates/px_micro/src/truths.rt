// The truths of conditions.
ghost use Rattle.std.specs.Prelude.{◌≡◌, IfOk};
ghost use Rattle.px_value.specs.Truth.{truth_of};
ghost use Rattle.px_flat.specs.NumberedData.{expr_data};
ghost use Rattle.px_flat.specs.Within.{IsWithin};
ghost use Rattle.px_parts.specs.Parts.{AreStanding, plan_in, value_in};

use px_eval::value_of;
use px_flat::NumberedExpr;
use px_parts::Parts;
use px_value::{NoMemory, Value};
use std::alloc::Global;

/// The truth of each condition of a node; None is UNKNOWN.
#[derive(Clone, Copy, PartialEq, Eq)]
pub struct Truths {
    pub start: Option<bool>,
    pub end: Option<bool>,
    pub exit: Option<bool>,
    pub skip: Option<bool>,
    pub repeat: Option<bool>,
    pub pre: Option<bool>,
    pub post: Option<bool>,
    pub invariant: Option<bool>,
}

/// The truth of a condition now; None is UNKNOWN.
pub fn truth(alloc: Global, parts: &Parts, expr: &NumberedExpr) -> Result<Option<bool>, NoMemory>
    requires stand { AreStanding parts.now }
    requires within { IsWithin (plan_in parts.now) (expr_data expr.now) }
    ensures { IfOk result (λ truth. truth ≡ truth_of (value_in parts.now (expr_data expr.now))) }
{
    match value_of(alloc, &parts.flat, &parts.cells, &parts.reports, expr)? {
        Value::Boolean(truth) => Ok(Some(truth)),
        _ => Ok(None),
    }
}
