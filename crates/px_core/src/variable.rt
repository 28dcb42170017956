// The variables that a node declares.
ghost use Rattle.std.specs.Prelude.{◌≡◌, map, IfOk};
ghost use Rattle.px_core.specs.Plan.{variable_data};

use px_value::{Name, NoMemory, Value};
use std::alloc::Global;

/// The type of a variable's values (PLEXIL reference manual, "Data Types").
#[derive(Clone, Copy, PartialEq, Eq, Hash)]
pub enum VarKind {
    Boolean,
    Integer,
    Text,
}

/// A variable or an array that a node declares (PLEXIL reference manual, "Variables", "Arrays").
#[derive(Drop)]
pub struct Variable {
    pub name: Name,
    pub kind: VarKind,
    /// How many elements an array has; None for a scalar.
    pub size: Option<u32>,
    /// The values at first, element by element. What has none is UNKNOWN.
    pub init: Vec<Value>,
}

impl Variable {
    /// An equal variable.
    pub fn copy(&self, alloc: Global) -> Result<Variable, NoMemory>
        ensures { IfOk result (λ copy. variable_data copy ≡ variable_data self.now) }
    {
        Ok(Variable {
            name: self.name.copy(alloc)?,
            kind: self.kind,
            size: self.size,
            init: copy_values(alloc, &self.init)?,
        })
    }
}

/// Equal values, in their order.
fn copy_values(alloc: Global, values: &[Value]) -> Result<Vec<Value>, NoMemory>
    ensures { IfOk result (λ copies. copies.items ≡ values.now) }
{
    let mut copies = Vec::with_capacity(alloc, values.len())?;
    for value in values {
        copies.push(value.copy(alloc)?)?;
    }
    Ok(copies)
}

/// Equal variables, in their order.
pub(crate) fn copy_each(alloc: Global, variables: &[Variable]) -> Result<Vec<Variable>, NoMemory>
    ensures { IfOk result (λ copies. map variable_data copies.items ≡ map variable_data variables.now) }
{
    let mut copies = Vec::with_capacity(alloc, variables.len())?;
    for variable in variables {
        copies.push(variable.copy(alloc)?)?;
    }
    Ok(copies)
}
