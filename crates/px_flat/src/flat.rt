// The tables of a plan.
ghost use Rattle.std.specs.Prelude.{◌≡◌, ◌<◌, ◌≤◌, [], length, position, slice_index_or, IfOk, IfSome};
ghost use Rattle.px_core.specs.Fit.{IsFit};
ghost use Rattle.px_core.specs.Plan.{tree_of, sites, is_same};
ghost use Rattle.px_sem.specs.Tolerances.{tolerances};
ghost use Rattle.px_flat.specs.Extents.{AreBelow, extent_of};
ghost use Rattle.px_flat.specs.Layout as layout;
ghost use Rattle.px_flat.specs.Lookups.{lookups_of};
ghost use Rattle.px_flat.specs.Names.{plan_in};
ghost use Rattle.px_flat.specs.Numbered.{numbered_node};
ghost use Rattle.px_flat.specs.NumberedData.{AreNumbered, node_data};
ghost use Rattle.px_flat.specs.Row.{IsRowOf, number_at, site_in};
ghost use Rattle.px_flat.specs.Within.{IsNodeWithin};

use crate::names::Names;
use crate::nodes::nodes_of;
use crate::numbered::NumberedNode;
use crate::numbering::numbered_nodes;
use crate::row::{Extent, Row};
use px_core::Plan;
use px_value::{Name, NoMemory, Path};
use std::alloc::Global;

/// A plan as tables: its nodes by number in preorder, from 0.
#[derive(Drop)]
pub struct Flat {
    names: Names,
    nodes: Vec<NumberedNode>,
    variable_cells: u32,
    ghost numbered: { ∥ AreNumbered (plan_in names) nodes.items ∥₁ },
    ghost cells: { variable_cells ≡ layout.variable_cells (plan_in names) },
}

// How many cells the variables of all nodes have.
fn variable_cells(names: &Names) -> u32
    ensures { result ≡ layout.variable_cells (plan_in names.now) }
{
    let last = names.extents[names.extents.len() - 1];
    last.first_cell + last.cells
}

impl Flat {
    ghost use Rattle.px_flat.specs.Flat.{plan_of};

    /// The tables of a plan.
    pub(crate) fn of(alloc: Global, plan: &Plan) -> Result<Flat, NoMemory>
        requires { IsFit (tree_of plan.now) }
        ensures { IfOk result (λ flat. plan_of flat ≡ sites (tree_of plan.now)) }
    {
        let lent = nodes_of(alloc, plan)?;
        let names = Names::of(alloc, plan, &lent)?;
        let nodes = numbered_nodes(alloc, &names, &lent)?;
        let variable_cells = variable_cells(&names);
        Ok(Flat {
            names,
            nodes,
            variable_cells,
        })
    }

    /// How many nodes the plan has: 1 to 4,096.
    pub fn nodes(&self) -> u32
        ensures count { result ≡ length (plan_of self.now) }
        ensures some { 0 < result }
        ensures few { result ≤ 4096 }
    {
        self.nodes.len() as u32
    }

    /// The number of the node at a path; None exactly where the plan has no such node.
    pub fn number_of(&self, path: &Path) -> Option<u32>
        ensures number { result ≡ number_at (plan_of self.now) path.now }
        ensures within { IfSome result (λ node. node < length (plan_of self.now)) }
    {
        match self.names.paths.get_index_of(path) {
            Some(node) => Some(node as u32),
            None => None,
        }
    }

    /// The row of a node.
    pub fn row(&self, node: u32) -> &Row
        requires { node < length (plan_of self.now) }
        ensures { IsRowOf (plan_of self.now) node result.now }
    {
        &self.names.rows[node as usize]
    }

    /// Which variable cells and which nodes belong to a node.
    pub fn extent(&self, node: u32) -> Extent
        requires { node < length (plan_of self.now) }
        ensures extent { result ≡ extent_of (plan_of self.now) node }
        ensures below { AreBelow (plan_of self.now) node result.end }
    {
        self.names.extents[node as usize]
    }

    /// What a node computes, with numbers in place of names.
    pub fn node(&self, node: u32) -> &NumberedNode
        requires { node < length (plan_of self.now) }
        ensures node { node_data result.now ≡ numbered_node (plan_of self.now) (site_in (plan_of self.now) node).head }
        ensures within { IsNodeWithin (plan_of self.now) (node_data result.now) }
    {
        &self.nodes[node as usize]
    }

    /// How many names the plan looks up.
    pub fn lookups(&self) -> u32
        ensures { result ≡ length (lookups_of (plan_of self.now)) }
    {
        self.names.lookups.len() as u32
    }

    /// The lookup name of a number.
    pub fn lookup_name(&self, lookup: u32) -> &Name
        requires { lookup < length (lookups_of (plan_of self.now)) }
        ensures { result.now ≡ slice_index_or (lookups_of (plan_of self.now)) lookup [] }
    {
        &self.names.lookups[lookup as usize]
    }

    /// The number of a lookup name; None exactly where the plan doesn't look it up.
    pub fn lookup_number(&self, name: &Name) -> Option<u32>
        ensures number { result ≡ position (is_same name.now) (lookups_of (plan_of self.now)) }
        ensures within { IfSome result (λ lookup. lookup < length (lookups_of (plan_of self.now))) }
    {
        match self.names.lookups.get_index_of(name) {
            Some(lookup) => Some(lookup as u32),
            None => None,
        }
    }

    /// The distinct tolerances of the plan's lookups, rising.
    pub fn tolerances(&self) -> &[u32]
        ensures { result.now ≡ tolerances (plan_of self.now) }
    {
        &self.names.tolerances
    }

    /// How many cells the plan's variables have, at most 131,072. They are the first cells of all.
    pub fn variable_cells(&self) -> u32
        ensures cells { result ≡ layout.variable_cells (plan_of self.now) }
        ensures few { result ≤ 131072 }
    {
        self.variable_cells
    }

    /// How many cells there are: those of the variables and five for each node, at most 151,552.
    pub fn all_cells(&self) -> u32
        ensures cells { result ≡ layout.all_cells (plan_of self.now) }
        ensures few { result ≤ 151552 }
    {
        self.variable_cells + 5 * self.nodes()
    }

    /// The cell of a node's state.
    pub fn state_cell(&self, node: u32) -> u32
        requires { node < length (plan_of self.now) }
        ensures cell { result ≡ layout.state_cell (plan_of self.now) node }
        ensures within { result < layout.all_cells (plan_of self.now) }
    {
        self.variable_cells + 5 * node
    }

    /// The cell of a node's outcome.
    pub fn outcome_cell(&self, node: u32) -> u32
        requires { node < length (plan_of self.now) }
        ensures cell { result ≡ layout.outcome_cell (plan_of self.now) node }
        ensures within { result < layout.all_cells (plan_of self.now) }
    {
        self.state_cell(node) + 1
    }

    /// The cell of a node's failure.
    pub fn failure_cell(&self, node: u32) -> u32
        requires { node < length (plan_of self.now) }
        ensures cell { result ≡ layout.failure_cell (plan_of self.now) node }
        ensures within { result < layout.all_cells (plan_of self.now) }
    {
        self.state_cell(node) + 2
    }

    /// The cell of a node's handle.
    pub fn handle_cell(&self, node: u32) -> u32
        requires { node < length (plan_of self.now) }
        ensures cell { result ≡ layout.handle_cell (plan_of self.now) node }
        ensures within { result < layout.all_cells (plan_of self.now) }
    {
        self.state_cell(node) + 3
    }

    /// The cell of a node's acknowledgement.
    pub fn acknowledgement_cell(&self, node: u32) -> u32
        requires { node < length (plan_of self.now) }
        ensures cell { result ≡ layout.acknowledgement_cell (plan_of self.now) node }
        ensures within { result < layout.all_cells (plan_of self.now) }
    {
        self.state_cell(node) + 4
    }
}
