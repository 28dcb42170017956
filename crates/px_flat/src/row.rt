// A node of the plan, in the tables.
use px_core::{Body, Conditions, Kind, Variable};
use px_value::{Name, Path};
use std::snapshot::Snapshot;

/// All that a node has beside its children.
#[derive(Drop)]
pub struct Head {
    pub name: Name,
    pub kind: Kind,
    /// They have no bytes: contracts alone see them. What computes them is the numbered node.
    pub conditions: Snapshot<Conditions>,
    pub priority: u32,
    pub variables: Vec<Variable>,
    pub body: Body,
}

/// A node with its path, and the number of its parent in preorder.
#[derive(Drop)]
pub struct Row {
    pub path: Path,
    /// None for the root.
    pub parent: Option<u32>,
    pub head: Head,
}

/// Which variable cells and which nodes belong to a node.
#[derive(Clone, Copy, PartialEq, Eq)]
pub struct Extent {
    /// The first of the node's variable cells.
    pub first_cell: u32,
    /// How many variable cells the node has.
    pub cells: u32,
    /// The number after the node's last descendant.
    pub end: u32,
}
