// The nodes round a place of a plan, and what is named among them.
ghost use Rattle.std.specs.Prelude.{◌≡◌, ◌-◌, ◌∷◌, [], ◌++◌, map, drop, length, slice_get, option_map, IfOk, OnOk, OnErr};
ghost use Rattle.std.specs.List.{find};
ghost use Rattle.std.specs.Option.{option_and_then, option_copied};
ghost use Rattle.px_syntax.specs.Scope.{is_named, child_named, searched};
ghost use Rattle.px_check.specs.Nodes.{head_data, named_heads};
ghost use Rattle.px_check.specs.Scoped.{IsOver};

use crate::room::push_in_room;
use crate::scoped::Scoped;
use px_value::{Name, NoMemory};
use std::alloc::Global;
use std::marker::Model;

/// What is seen of a node from outside: its label, where it has one, and whether it is a Command.
#[derive(Drop)]
pub struct NodeHead {
    pub label: Option<Name>,
    pub is_command: bool,
}

/// A node, with what is seen of its children.
#[derive(Drop)]
pub struct OpenNode {
    head: NodeHead,
    children: Vec<NodeHead>,
    /// The children that have labels, told whether they are Commands.
    names: Scoped<bool>,
}

impl Model for OpenNode {
    ghost use Rattle.std.specs.Prelude.{◌≡◌, map};
    ghost use Rattle.px_syntax.specs.Scope.{Node};

    ghost Value = { Node };

    ghost use Rattle.px_check.specs.Nodes.{head_data, named_heads};

    ghost view = { λ node. record { head = head_data node.head; children = map head_data node.children.items } };

    ghost invariant = { λ node. node.names ≡ named_heads (map head_data node.children.items) };
}

/// The nodes round a place.
#[derive(Drop)]
pub struct Nodes {
    /// From the root in.
    open: Vec<OpenNode>,
    /// The names of all these nodes and of their children, told whether they are Commands.
    names: Scoped<bool>,
}

impl Model for Nodes {
    ghost use Rattle.std.specs.Prelude.{◌≡◌, List, reverse};
    ghost use Rattle.px_syntax.specs.Scope.{Node};
    ghost use Rattle.px_check.specs.Nodes.{names_of};

    ghost Value = { List Node };

    ghost view = { λ nodes. reverse nodes.open.items };

    ghost invariant = { λ nodes. nodes.names ≡ names_of (reverse nodes.open.items) };
}

impl OpenNode {
    /// The node with this head and these children.
    pub fn new(alloc: Global, head: NodeHead, children: Vec<NodeHead>) -> Result<OpenNode, NoMemory>
        ensures { IfOk result (λ node. node
            ≡ record { head = head_data head; children = map head_data children.items }) }
    {
        let names = named_heads(alloc, &children)?;
        Ok(OpenNode {
            head,
            children,
            names,
        })
    }

    // How many of so many names stand outside those of the node and its children.
    fn names_outside(&self, all: usize) -> usize
        ensures { result ≡ all - length (named_heads (self.now.children ++ self.now.head ∷ [])) }
    {
        let rest = all.saturating_sub(self.names.len());
        match self.head.label {
            Some(_) => rest.saturating_sub(1),
            None => rest,
        }
    }

    // Puts the names of the node and its children nearest.
    fn push_names(&self, alloc: Global, names: &mut Scoped<bool>) -> Result<(), NoMemory>
        ensures ok { OnOk result (names.new
            ≡ named_heads (self.now.children ++ self.now.head ∷ []) ++ names.old) }
        ensures err { OnErr result (IsOver names.old names.new) }
    {
        if let Some(label) = &self.head.label {
            names.push(alloc, label, self.head.is_command)?;
        }
        names.append(alloc, &self.names)
    }

    // Whether the child of a name is a Command.
    fn child(&self, name: &Name) -> Option<bool>
        ensures { result ≡ option_map (λ head. head.is_command) (child_named name.now self.now) }
    {
        self.names.get(name)
    }
}

// Puts a node innermost, its names and those of its children nearest. With an Err some of these names may have been put
// there.
fn push_node(
    alloc: Global,
    node: OpenNode,
    nodes: &mut Vec<OpenNode>,
    names: &mut Scoped<bool>,
) -> Result<(), NoMemory>
    ensures nodes { OnOk result (nodes.new.items ≡ nodes.old.items ++ node ∷ []) }
    ensures names { OnOk result (names.new ≡ named_heads (node.children ++ node.head ∷ []) ++ names.old) }
    ensures same { OnErr result (nodes.new.items ≡ nodes.old.items) }
    ensures over { OnErr result (IsOver names.old names.new) }
{
    nodes.reserve(1)?;
    node.push_names(alloc, names)?;
    push_in_room(nodes, node);
    Ok(())
}

impl Nodes {
    /// No nodes.
    pub fn new(alloc: Global) -> Nodes
        ensures { result ≡ [] }
    {
        Nodes {
            open: Vec::new(alloc),
            names: Scoped::new(alloc),
        }
    }

    /// How many nodes there are.
    pub fn len(&self) -> usize
        ensures { result ≡ length self.now }
    {
        self.open.len()
    }

    /// Goes inside a node. With an Err nothing has changed.
    pub fn enter(&mut self, alloc: Global, node: OpenNode) -> Result<(), NoMemory>
        ensures ok { OnOk result (self.new ≡ node ∷ self.old) }
        ensures err { OnErr result (self.new ≡ self.old) }
    {
        let outer = self.names.len();
        if let Err(fault) = push_node(alloc, node, &mut self.open, &mut self.names) {
            self.names.truncate(outer);
            return Err(fault);
        }
        Ok(())
    }

    fn leave(&mut self)
        ensures { self.new ≡ drop 1 self.old }
    {
        if let Some(node) = self.open.pop() {
            let outer = node.names_outside(self.names.len());
            self.names.truncate(outer);
        }
    }

    /// Leaves the inner nodes, down to this many, without a need of memory.
    pub fn truncate(&mut self, len: usize)
        ensures { self.new ≡ drop (length self.old - len) self.old }
    {
        while self.len() > len {
            self.leave();
        }
    }

    /// Whether the node that a name means is a Command; None exactly where it means none.
    pub fn named(&self, name: &Name) -> Option<bool>
        ensures { result ≡ option_map (λ head. head.is_command) (find (is_named name.now) (searched self.now)) }
    {
        self.names.get(name)
    }

    // The node so many nodes outside the innermost.
    fn at(&self, up: usize) -> Option<&OpenNode>
        ensures { option_copied result ≡ slice_get self.now up }
    {
        if up < self.open.len() {
            Some(&self.open[self.open.len() - 1 - up])
        } else {
            None
        }
    }

    /// Whether the node so many nodes outside the innermost is a Command; None exactly where there is no such node.
    pub fn is_command_at(&self, up: usize) -> Option<bool>
        ensures { result ≡ option_map (λ node. node.head.is_command) (slice_get self.now up) }
    {
        Some(self.at(up)?.head.is_command)
    }

    /// Whether the child of this name of the node so many nodes outside the innermost is a Command; None exactly where
    /// there is none.
    pub fn child_at(&self, up: usize, name: &Name) -> Option<bool>
        ensures { result ≡ option_map (λ head. head.is_command)
            (option_and_then (child_named name.now) (slice_get self.now up)) }
    {
        self.at(up)?.child(name)
    }
}

// The labels of nodes side by side, the first of them nearest.
fn named_heads(alloc: Global, heads: &[NodeHead]) -> Result<Scoped<bool>, NoMemory>
    ensures { IfOk result (λ names. names ≡ named_heads (map head_data heads.now)) }
{
    let mut names = Scoped::new(alloc);
    let mut rest = heads;
    while let Some((head, others)) = rest.split_last() {
        if let Some(label) = &head.label {
            names.push(alloc, label, head.is_command)?;
        }
        rest = others;
    }
    Ok(names)
}
