// What is visible at a place of a plan.
ghost use Rattle.std.specs.Prelude.{◌≡◌, [], ◌∷◌, length, option_map, IfOk, OnOk};
ghost use Rattle.std.specs.List.{flat_map};
ghost use Rattle.px_syntax.specs.Scope.{variable_named, declared, meant, inside, commands_in, lookups_in};

use crate::globals::{Callable, Globals};
use crate::nodes::{Nodes, OpenNode};
use crate::scoped::Scoped;
use px_syntax::{NodeReference, ValueType};
use px_value::{Name, NoMemory};
use std::alloc::Global;
use std::marker::Model;

/// The type of a variable or, of an array, of its elements.
#[derive(Clone, Copy)]
pub struct VariableType {
    pub of_type: ValueType,
    pub is_array: bool,
}

/// How many nodes and variables are seen from a place.
#[derive(Clone, Copy)]
pub struct Mark {
    nodes: usize,
    variables: usize,
}

/// What is visible at a place: the declarations before the root, the variables and the nodes.
#[derive(Drop)]
pub struct Scope<'a> {
    globals: Globals<'a>,
    variables: Scoped<VariableType>,
    nodes: Nodes,
}

impl<'a> Model for Scope<'a> {
    ghost use Rattle.std.specs.List.{flat_map};
    ghost use Rattle.px_syntax.specs.Scope.{Scope as SeenScope, commands_in, lookups_in};

    ghost Value = { SeenScope };

    ghost use Rattle.px_check.specs.Scope.{visibles};

    ghost view = { λ scope. record {
      commands = flat_map commands_in scope.globals;
      lookups = flat_map lookups_in scope.globals;
      variables = visibles scope.variables;
      nodes = scope.nodes;
    } };
}

impl<'a> Scope<'a> {
    ghost use Rattle.px_check.specs.Globals.{callable_data};
    ghost use Rattle.px_check.specs.Scope.{visibles, type_seen, outside};

    /// Outside all nodes only the declarations before the root are visible.
    pub fn outermost(alloc: Global, globals: Globals<'a>) -> Scope<'a>
        ensures { result ≡ record {
          commands = flat_map commands_in globals.entry;
          lookups = flat_map lookups_in globals.entry;
          variables = [];
          nodes = [];
        } }
    {
        Scope {
            globals,
            variables: Scoped::new(alloc),
            nodes: Nodes::new(alloc),
        }
    }

    /// The type of the visible variable of a name; None exactly where there is none.
    pub fn variable(&self, name: &Name) -> Option<VariableType>
        ensures { result ≡ option_map type_seen (variable_named self.now name.now) }
    {
        self.variables.get(name)
    }

    /// The declared command of a name.
    pub fn command(&self, name: &Name) -> Option<Callable<'a>>
        ensures { option_map callable_data result ≡ declared self.now.commands name.now }
    {
        self.globals.command(name)
    }

    /// The declared lookup of a name.
    pub fn lookup(&self, name: &Name) -> Option<Callable<'a>>
        ensures { option_map callable_data result ≡ declared self.now.lookups name.now }
    {
        self.globals.lookup(name)
    }

    /// Whether the node that is meant is a Command; None exactly where there is no such node.
    pub fn meant(&self, node: &NodeReference) -> Option<bool>
        ensures { result ≡ option_map (λ head. head.is_command) (meant self.now node.now) }
    {
        match node {
            NodeReference::Named(name) => self.nodes.named(&name.name),
            NodeReference::SelfNode(_) => self.nodes.is_command_at(0),
            NodeReference::Parent(_) => self.nodes.is_command_at(1),
            NodeReference::Sibling(_, name) => self.nodes.child_at(1, &name.name),
            NodeReference::Child(_, name) => self.nodes.child_at(0, &name.name),
        }
    }

    /// The place, to come back to.
    pub fn mark(&self) -> Mark
        ensures { result ≡ record { nodes = length self.now.nodes; variables = length self.now.variables } }
    {
        Mark {
            nodes: self.nodes.len(),
            variables: self.variables.len(),
        }
    }

    /// Comes back to a place from inside it, without a need of memory.
    pub fn back_to(&mut self, mark: Mark)
        ensures { self.new ≡ outside mark.nodes mark.variables self.old }
    {
        self.nodes.truncate(mark.nodes);
        self.variables.truncate(mark.variables);
    }

    /// Goes inside a node that declares no variables.
    pub fn enter(&mut self, alloc: Global, node: OpenNode) -> Result<(), NoMemory>
        ensures { OnOk result (self.new ≡ inside self.old node []) }
    {
        self.nodes.enter(alloc, node)
    }

    /// Makes a variable visible, nearest.
    pub fn declare(
        &mut self,
        alloc: Global,
        name: &Name,
        of_type: VariableType,
    ) -> Result<(), NoMemory>
        ensures { OnOk result (self.new ≡ record {
          commands = self.old.commands;
          lookups = self.old.lookups;
          variables = record { name = name.now; of_type = of_type.of_type; is_array = of_type.is_array }
              ∷ self.old.variables;
          nodes = self.old.nodes;
        }) }
    {
        self.variables.push(alloc, name, of_type)
    }
}
