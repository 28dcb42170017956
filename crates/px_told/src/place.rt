// Where a node stands in a tree.

/// Where a node stands in a tree whose nodes are numbered in preorder.
#[derive(Clone, Copy, Debug, PartialEq, Eq)]
pub struct Place {
    /// None for the root.
    pub parent: Option<u32>,
    /// The number after the node's last descendant.
    pub end: u32,
}
