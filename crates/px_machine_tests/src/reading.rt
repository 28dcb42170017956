// The plan of a row, and what its script posts.
ghost use Rattle.std.specs.Prelude.{IsTrue, IfOk};
ghost use Rattle.std.specs.List.{list_all};
ghost use Rattle.px_core.specs.Fit.{IsFit};
ghost use Rattle.px_core.specs.Plan.{tree_of};
ghost use Rattle.px_event.specs.Fit.{is_fit_entry};

use anyhow::bail;
use px_compile::{TEXT_LIMIT, compile};
use px_core::Plan;
use px_event::Entry;
use px_script::{SCRIPT_LIMIT, read_script};
use std::alloc::Global;

/// The plan that a text spells.
pub(crate) fn plan_of(alloc: Global, text: &str) -> anyhow::Result<Plan>
    ensures fit { IfOk result (λ plan. IsFit (tree_of plan)) }
{
    if text.len() > TEXT_LIMIT {
        bail!("a plan is too long");
    }
    match compile(alloc, text.as_bytes()) {
        Ok(plan) => Ok(plan),
        Err(fault) => bail!("a plan is refused: {fault}"),
    }
}

/// What a script posts to the plan, by rising line number.
pub(crate) fn entries_of(alloc: Global, text: &str, plan: &Plan) -> anyhow::Result<Vec<Entry>>
    requires { IsFit (tree_of plan.now) }
    ensures fit { IfOk result (λ entries. IsTrue (list_all is_fit_entry entries.items)) }
{
    if text.len() > SCRIPT_LIMIT {
        bail!("a script is too long");
    }
    match read_script(alloc, text.as_bytes(), plan) {
        Ok(script) => Ok(script.into_entries(alloc)?),
        Err(fault) => bail!("a script is refused: {fault}"),
    }
}
