// The nodes of a plan.
ghost use Rattle.std.specs.Prelude.{◌≡◌, ◌<◌, ◌^◌, map, IfOk};
ghost use Rattle.px_core.specs.Plan.{tree_of_node, count_of};

use crate::body::Body;
use crate::conditions::Conditions;
use crate::variable::{self, Variable};
use px_value::{Name, NoMemory};
use std::alloc::Global;

/// What kind of work a node does (PLEXIL reference manual, "Node Types").
#[derive(Clone, Copy, PartialEq, Eq, Hash)]
pub enum Kind {
    /// Runs its children.
    List,
    Empty,
    Assignment,
    Command,
    Update,
}

/// A node with all that is below it (PLEXIL reference manual, "Nodes").
#[derive(Drop)]
pub struct CoreNode {
    pub name: Name,
    pub kind: Kind,
    pub conditions: Conditions,
    /// Of the nodes that would write one variable at once, assignments and commands with a result alike, that with the
    /// lowest number goes.
    pub priority: u32,
    pub variables: Vec<Variable>,
    pub body: Body,
    pub children: Vec<CoreNode>,
}

impl CoreNode {
    /// An equal node, with copies of all that is below it.
    #[cycle(copy)]
    pub fn copy(&self, alloc: Global) -> Result<CoreNode, NoMemory>
        ensures { IfOk result (λ copy. tree_of_node copy ≡ tree_of_node self.now) }
    {
        Ok(CoreNode {
            name: self.name.copy(alloc)?,
            kind: self.kind,
            conditions: self.conditions.copy(alloc)?,
            priority: self.priority,
            variables: variable::copy_each(alloc, &self.variables)?,
            body: self.body.copy(alloc)?,
            children: copy_each(alloc, &self.children)?,
        })
    }

    /// How many nodes there are: this one and all below it.
    pub(crate) fn nodes(&self) -> u32
        requires { count_of (tree_of_node self.now) < 2 ^ 32 }
        ensures { result ≡ count_of (tree_of_node self.now) }
    {
        let mut count = 1;
        for child in &self.children {
            count += child.nodes();
        }
        count
    }
}

/// Equal nodes, in their order.
#[cycle(copy)]
fn copy_each(alloc: Global, nodes: &[CoreNode]) -> Result<Vec<CoreNode>, NoMemory>
    ensures { IfOk result (λ copies. map tree_of_node copies.items ≡ map tree_of_node nodes.now) }
{
    let mut copies = Vec::with_capacity(alloc, nodes.len())?;
    for node in nodes {
        copies.push(node.copy(alloc)?)?;
    }
    Ok(copies)
}
