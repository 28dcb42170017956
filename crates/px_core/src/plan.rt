// Whole plans.
ghost use Rattle.std.specs.Prelude.{◌≡◌, ◌≤◌, IfOk};
ghost use Rattle.px_core.specs.Plan.{tree_of, count_of};

use crate::node::CoreNode;
use px_value::NoMemory;
use std::alloc::Global;

/// A plan, which is its root (PLEXIL reference manual, "Overview").
#[derive(Drop)]
pub struct Plan {
    pub root: CoreNode,
}

impl Plan {
    /// How many nodes the plan has; a fit plan has at most 4,096.
    pub fn nodes(&self) -> u32
        requires count { count_of (tree_of self.now) ≤ 4096 }
        ensures { result ≡ count_of (tree_of self.now) }
    {
        self.root.nodes()
    }

    /// An equal plan.
    pub fn copy(&self, alloc: Global) -> Result<Plan, NoMemory>
        ensures { IfOk result (λ plan. tree_of plan ≡ tree_of self.now) }
    {
        Ok(Plan {
            root: self.root.copy(alloc)?,
        })
    }
}
