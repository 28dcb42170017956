// The nodes of a plan by their paths.
use px_core::{CoreNode, Kind, Plan};
use px_pen::Pen;
use px_value::NoMemory;
use std::alloc::Global;

/// A node with its path.
#[derive(Drop)]
pub struct NodePath<'a> {
    pub path: String,
    /// How many nodes are round it.
    pub depth: usize,
    pub node: &'a CoreNode,
}

/// All nodes of a plan, each before those below it.
pub fn paths_of(alloc: Global, plan: &Plan) -> Result<Vec<NodePath<'_>>, NoMemory> {
    let mut list = Vec::new(alloc);
    push_nodes(alloc, &plan.root, plan.root.name.as_str(), 0, &mut list)?;
    Ok(list)
}

// Appends a node and all below it.
fn push_nodes<'a>(
    alloc: Global,
    node: &'a CoreNode,
    path: &str,
    depth: usize,
    list: &mut Vec<NodePath<'a>>,
) -> Result<(), NoMemory> {
    push_node(alloc, node, path, depth, list)?;
    for child in &node.children {
        let path = path_below(alloc, path, child)?;
        push_nodes(alloc, child, path.as_str(), depth.saturating_add(1), list)?;
    }
    Ok(())
}

fn push_node<'a>(
    alloc: Global,
    node: &'a CoreNode,
    path: &str,
    depth: usize,
    list: &mut Vec<NodePath<'a>>,
) -> Result<(), NoMemory> {
    let path = String::from_str(alloc, path)?;
    list.push(NodePath { path, depth, node })?;
    Ok(())
}

fn path_below(alloc: Global, path: &str, child: &CoreNode) -> Result<String, NoMemory> {
    let mut below = Pen::new(alloc);
    below.push(path);
    below.fill(".{}", child.name.as_str());
    below.written()
}

impl<'a> NodePath<'a> {
    /// The node's kind, with its article.
    pub fn a_kind(&self) -> &'static str {
        match self.node.kind {
            Kind::List => "a List",
            Kind::Empty => "an Empty node",
            Kind::Assignment => "an Assignment",
            Kind::Command => "a Command",
            Kind::Update => "an Update",
        }
    }
}

/// The last name of a path.
pub fn last_name(path: &str) -> &str {
    match path.rsplit_once('.') {
        Some((_, last)) => last,
        None => path,
    }
}
