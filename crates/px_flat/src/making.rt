// Makes the tables of a plan.
ghost use Rattle.std.specs.Prelude.{◌≡◌, IfOk};
ghost use Rattle.px_core.specs.Fit.{IsFit};
ghost use Rattle.px_core.specs.Plan.{tree_of, sites};
ghost use Rattle.px_flat.specs.Flat.{plan_of};

use crate::flat::Flat;
use px_core::Plan;
use px_value::NoMemory;
use std::alloc::Global;

/// The tables of a plan: a row a node in preorder, and what is found by them.
///
/// `NoMemory` comes for want of memory, and where the plan looks up 2^32 names or more.
pub fn flatten(alloc: Global, plan: &Plan) -> Result<Flat, NoMemory>
    requires { IsFit (tree_of plan.now) }
    ensures { IfOk result (λ flat. plan_of flat ≡ sites (tree_of plan.now)) }
{
    Flat::of(alloc, plan)
}
