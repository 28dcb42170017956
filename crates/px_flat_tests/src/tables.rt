// The tables of the plan that a text spells.
use anyhow::bail;
use px_compile::{TEXT_LIMIT, compile};
use px_flat::{Flat, flatten};
use std::alloc::Global;

/// The tables of the plan that a text spells.
pub(crate) fn tables(alloc: Global, text: &str) -> anyhow::Result<Flat> {
    if text.len() > TEXT_LIMIT {
        bail!("the plan is too long");
    }
    let plan = match compile(alloc, text.as_bytes()) {
        Ok(plan) => plan,
        Err(fault) => bail!("refused: {fault}"),
    };
    let flat = flatten(alloc, &plan);
    // By name, here and elsewhere: the proof then has one call to follow, and not each shape that a plan may have.
    drop(plan);
    Ok(flat?)
}
