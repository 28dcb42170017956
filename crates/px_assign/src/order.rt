// The writers of all variables, in the order in which they go.
ghost use Rattle.std.specs.Prelude.{◌≡◌, IfOk};
ghost use Rattle.px_flat.specs.Flat.{plan_of};
ghost use Rattle.px_assign.specs.Ordering.{AreInOrder, AreWriters, variables_of};

use crate::writing::variable_of;
use px_flat::Flat;
use px_value::NoMemory;
use std::alloc::Global;

/// A node that writes a variable, and what decides who goes first: writers of one variable stand together, and of these
/// the lower priority number goes first, and of one number the earlier node.
#[derive(Clone, Copy, PartialEq, Eq, PartialOrd, Ord)]
pub(crate) struct Writer {
    pub(crate) variable: u32,
    pub(crate) priority: u32,
    pub(crate) node: u32,
}

/// The variable that each node writes, by its first cell, if it writes one.
pub(crate) fn variables(alloc: Global, flat: &Flat) -> Result<Vec<Option<u32>>, NoMemory>
    ensures { IfOk result (λ variables. variables.items ≡ variables_of (plan_of flat.now)) }
{
    let mut variables = Vec::with_capacity(alloc, flat.nodes() as usize)?;
    for node in 0..flat.nodes() {
        variables.push(variable_of(flat, node))?;
    }
    Ok(variables)
}

fn each_writer(alloc: Global, flat: &Flat) -> Result<Vec<Writer>, NoMemory>
    ensures { IfOk result (λ writers. AreWriters (plan_of flat.now) writers.items) }
{
    let mut writers = Vec::new(alloc);
    for node in 0..flat.nodes() {
        if let Some(variable) = variable_of(flat, node) {
            let priority = flat.row(node).head.priority;
            writers.push(Writer {
                variable,
                priority,
                node,
            })?;
        }
    }
    Ok(writers)
}

/// The writers of all variables, in the order in which they go.
pub(crate) fn writers(alloc: Global, flat: &Flat) -> Result<Vec<Writer>, NoMemory>
    ensures { IfOk result (λ writers. AreInOrder (plan_of flat.now) writers.items) }
{
    let mut writers = each_writer(alloc, flat)?;
    writers.sort()?;
    Ok(writers)
}
