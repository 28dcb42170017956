// What names mean somewhere in a plan.
ghost use Rattle.std.specs.Prelude.{◌≡◌, ◌<◌, [], ◌∷◌, reverse, drop, length, OnOk};
ghost use Rattle.std.specs.Option.{option_copied};
ghost use Rattle.px_scope.specs.Scope.{declared_from, here, meant, named_from, named_in, owner_of, parent_of, path_meant, self_of};

use indexmap::{IndexMap, IndexSet};
use px_syntax::NodeReference;
use px_value::{Name, NoMemory, Path};
use std::alloc::Global;
use std::marker::Model;

/// A node of the text, as it is seen from inside.
#[derive(Drop)]
pub(crate) struct Frame {
    pub(crate) name: Name,
    pub(crate) path: Path,
    /// The paths of its children.
    pub(crate) children: IndexMap<Name, Path>,
    /// The names of its variables.
    pub(crate) variables: IndexSet<Name>,
}

impl Model for Frame {
    ghost use Rattle.px_scope.specs.Scope as spec;

    ghost Value = { spec.Frame };

    ghost view = { λ frame. record {
      name = frame.name;
      path = frame.path;
      children = frame.children.entries;
      variables = frame.variables.keys;
    } };
}

/// The nodes of the text round an expression.
#[derive(Drop)]
pub struct Scope {
    /// From the root in.
    frames: Vec<Frame>,
}

impl Model for Scope {
    ghost use Rattle.std.specs.Prelude.{reverse};
    ghost use Rattle.px_scope.specs.Scope as spec;

    ghost Value = { spec.Scope };

    ghost view = { λ scope. reverse scope.frames.items };
}

impl Frame {
    /// The node that a name means among the children, and then this one.
    fn named(&self, name: &Name) -> Option<&Path>
        ensures { option_copied result ≡ named_in name.now self.now }
    {
        if let Some(path) = self.children.get(name) {
            return Some(path);
        }
        if self.name == *name {
            return Some(&self.path);
        }
        None
    }
}

impl Scope {
    /// The scope round a root.
    pub fn new(alloc: Global) -> Scope
        ensures { result ≡ [] }
    {
        Scope {
            frames: Vec::new(alloc),
        }
    }

    /// Goes into a node of this name and this path, with the paths of its children and the names of its variables. After an error the scope is of no use.
    pub fn enter(
        &mut self,
        name: Name,
        path: Path,
        children: IndexMap<Name, Path>,
        variables: IndexSet<Name>,
    ) -> Result<(), NoMemory>
        ensures { OnOk result (self.new ≡ record {
          name = name;
          path = path;
          children = children.entries;
          variables = variables.keys;
        } ∷ self.old) }
    {
        self.frames.push(Frame {
            name,
            path,
            children,
            variables,
        })?;
        Ok(())
    }

    /// Goes out of the innermost node.
    pub fn leave(&mut self)
        ensures { self.new ≡ drop 1 self.old }
    {
        drop(self.frames.pop());
    }

    /// The path of the node that an expression belongs to.
    fn here(&self) -> &Path
        requires { 0 < length self.now }
        ensures { result.now ≡ here self.now }
    {
        &self.frames[self.frames.len() - 1].path
    }

    /// The path of the node that declares a variable.
    pub fn owner(&self, name: &Name) -> &Path
        requires { 0 < length self.now }
        ensures { result.now ≡ owner_of self.now name.now }
    {
        match declared(&self.frames, name) {
            Some(path) => path,
            None => self.here(),
        }
    }

    /// The path of the node that a reference means.
    pub fn node(&self, reference: &NodeReference) -> &Path
        requires { 0 < length self.now }
        ensures { result.now ≡ path_meant self.now reference.now }
    {
        match self.meant(reference) {
            Some(path) => path,
            None => self.here(),
        }
    }

    fn meant(&self, reference: &NodeReference) -> Option<&Path>
        ensures { option_copied result ≡ meant self.now reference.now }
    {
        match reference {
            NodeReference::Named(name) => named(&self.frames, &name.name),
            NodeReference::SelfNode(_) => Some(&self.self_frame()?.path),
            NodeReference::Parent(_) => Some(&self.parent()?.path),
            NodeReference::Sibling(_, name) => self.parent()?.children.get(&name.name),
            NodeReference::Child(_, name) => self.self_frame()?.children.get(&name.name),
        }
    }

    fn self_frame(&self) -> Option<&Frame>
        ensures { option_copied result ≡ self_of self.now }
    {
        self.frames.last()
    }

    fn parent(&self) -> Option<&Frame>
        ensures { option_copied result ≡ parent_of self.now }
    {
        match self.frames.as_slice() {
            [.., parent, _] => Some(parent),
            _ => None,
        }
    }
}

/// The innermost node that declares a variable, of nodes from the root in.
fn declared<'a>(mut frames: &'a [Frame], name: &Name) -> Option<&'a Path>
    ensures { option_copied result ≡ declared_from name.now (reverse frames.entry.now) }
{
    while let Some((frame, outer)) = frames.split_last() {
        if frame.variables.contains(name) {
            return Some(&frame.path);
        }
        frames = outer;
    }
    None
}

/// The node that a name means, of nodes from the root in.
fn named<'a>(mut frames: &'a [Frame], name: &Name) -> Option<&'a Path>
    ensures { option_copied result ≡ named_from name.now (reverse frames.entry.now) }
{
    while let Some((frame, outer)) = frames.split_last() {
        if let Some(path) = frame.named(name) {
            return Some(path);
        }
        frames = outer;
    }
    None
}
