// What is asked of the world.
ghost use Rattle.std.specs.Prelude.{◌≡◌, ◌+◌, ◌<◌, ◌≤◌, length, map, sum};
ghost use Rattle.px_core.specs.Fit.{cells_of};
ghost use Rattle.px_core.specs.Plan.{variable_data};
ghost use Rattle.px_sem.specs.World.{standing_of, known_state, integer_at};
ghost use Rattle.px_parts.specs.Parts.{AreStanding, plan_in, record_of, world_in};
ghost use Rattle.px_parts.specs.Readings.{integer_in, scalar_from};

use crate::parts::Parts;
use px_core::Variable;
use px_sem::Standing;
use px_value::{Failure, Name, NodeState, Outcome, Path, Value};

/// The state of a node.
pub fn state_of(parts: &Parts, node: u32) -> NodeState
    requires stand { AreStanding parts.now }
    requires node { node < length (plan_in parts.now) }
    ensures { result ≡ (record_of parts.now node).state }
{
    match parts.cells.get(parts.flat.state_cell(node)) {
        Value::State(state) => *state,
        _ => NodeState::Inactive,
    }
}

/// The outcome of a node, where it has one.
pub fn outcome_of(parts: &Parts, node: u32) -> Option<Outcome>
    requires stand { AreStanding parts.now }
    requires node { node < length (plan_in parts.now) }
    ensures { result ≡ (record_of parts.now node).outcome }
{
    match parts.cells.get(parts.flat.outcome_cell(node)) {
        Value::Outcome(outcome) => Some(*outcome),
        _ => None,
    }
}

/// The failure of a node, where it has one.
pub fn failure_of(parts: &Parts, node: u32) -> Option<Failure>
    requires stand { AreStanding parts.now }
    requires node { node < length (plan_in parts.now) }
    ensures { result ≡ (record_of parts.now node).failure }
{
    match parts.cells.get(parts.flat.failure_cell(node)) {
        Value::Failure(failure) => Some(*failure),
        _ => None,
    }
}

// The cell of the scalar of this name, among variables that stand one after another from a cell on.
fn scalar_from(variables: &[Variable], first: u32, name: &Name) -> Option<u32>
    requires { first + sum (map cells_of (map variable_data variables.now)) ≤ 131072 }
    ensures { result ≡ scalar_from first (map variable_data variables.now) name.now }
{
    let mut cell = first;
    for variable in variables {
        if variable.name == *name {
            return match variable.size {
                None => Some(cell),
                Some(_) => None,
            };
        }
        cell += variable.size.unwrap_or(1);
    }
    None
}

fn integer_in(value: &Value) -> Option<i32>
    ensures { result ≡ integer_in value.now }
{
    match value {
        Value::Integer(number) => Some(*number),
        _ => None,
    }
}

impl Parts {
    /// Whether the plan has finished, and how: by its root.
    pub fn standing(&self) -> Standing
        requires { AreStanding self.now }
        ensures { result ≡ standing_of (plan_in self.now) (world_in self.now) }
    {
        match state_of(self, 0) {
            NodeState::Finished => Standing::Finished {
                outcome: outcome_of(self, 0).unwrap_or(Outcome::Success),
                failure: failure_of(self, 0),
            },
            _ => Standing::Running,
        }
    }

    /// The state of the node at a path; None exactly where the plan has no such node.
    pub fn known_state(&self, path: &Path) -> Option<NodeState>
        requires { AreStanding self.now }
        ensures { result ≡ known_state (world_in self.now) path.now }
    {
        match self.flat.number_of(path) {
            Some(node) => Some(state_of(self, node)),
            None => None,
        }
    }

    /// The Integer that a scalar variable holds; None exactly where no such scalar holds one.
    pub fn integer(&self, owner: &Path, name: &Name) -> Option<i32>
        requires { AreStanding self.now }
        ensures { result ≡ integer_at (plan_in self.now) (world_in self.now) owner.now name.now }
    {
        let node = self.flat.number_of(owner)?;
        let variables = &self.flat.row(node).head.variables;
        let cell = scalar_from(variables, self.flat.extent(node).first_cell, name)?;
        integer_in(self.cells.get(cell))
    }
}
