// What bytes compile to.
use crate::printed::lines_of;
use px_compile::{TEXT_LIMIT, compile};
use px_value::NoMemory;
use std::alloc::Global;

/// The core plan that a text spells, line by line, or else what it is refused for.
pub(crate) fn core_of(alloc: Global, text: &str) -> Result<String, NoMemory> {
    if text.len() > TEXT_LIMIT {
        return too_long(alloc);
    }
    match compile(alloc, text.as_bytes()) {
        Ok(plan) => {
            let lines = lines_of(alloc, &plan);
            // By name, here and below: the proof then doesn't follow each shape that a plan may have on the way out.
            drop(plan);
            lines
        }
        Err(fault) => format!(in alloc; "refused: {fault}"),
    }
}

/// How many nodes the plan has that bytes spell, or what they are refused for.
pub(crate) fn nodes_of(alloc: Global, bytes: &[u8]) -> Result<String, NoMemory> {
    if bytes.len() > TEXT_LIMIT {
        return too_long(alloc);
    }
    match compile(alloc, bytes) {
        Ok(plan) => {
            let nodes = plan.nodes();
            drop(plan);
            format!(in alloc; "{nodes} nodes")
        }
        Err(fault) => format!(in alloc; "refused: {fault}"),
    }
}

fn too_long(alloc: Global) -> Result<String, NoMemory> {
    String::from_str(alloc, "too long")
}
