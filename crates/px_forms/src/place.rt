// Where nodes of the core plan stand.
ghost use Rattle.std.specs.Prelude.{◌≡◌, ◌+◌, ◌<◌, ◌∷◌, ◌++◌, [], length, map, IfOk, OnOk};
ghost use Rattle.px_value.specs.Path.{below};
ghost use Rattle.px_core.specs.Plan.{Branch, NoNode, body_data, condition_terms, tree_of_node, variable_data, trees_of};
ghost use Rattle.px_forms.specs.Names.{generated};
ghost use Rattle.px_forms.specs.Nodes.{alone, child, node_at};
ghost use Rattle.px_forms.specs.Placed.{place_terms, tree_in};
ghost use Rattle.px_forms.specs.Shown.{added_terms, given_terms};

use crate::conditions::{Added, Given};
use crate::names::Generated;
use px_core::{Body, Conditions, CoreNode, Kind, Variable};
use px_value::{Name, NoMemory, PATH_LIMIT, Path};
use std::alloc::Global;

/// Where a node stands: its path and its name, and what the form round it adds to its conditions.
#[derive(Drop)]
pub struct Place {
    pub path: Path,
    pub name: Name,
    pub added: Box<Added>,
}

impl Place {
    /// Where a child of this path and this name stands.
    pub fn of(alloc: Global, path: &Path, name: &Name, added: Box<Added>) -> Result<Place, NoMemory>
        ensures { IfOk result (λ made. place_terms made
            ≡ record { path = path.now; name = name.now; added = added_terms added.value }) }
    {
        Ok(Place {
            path: path.copy(alloc)?,
            name: name.copy(alloc)?,
            added,
        })
    }

    /// A child of the node at a path.
    pub fn child(
        alloc: Global,
        parent: &Path,
        name: Name,
        added: Box<Added>,
    ) -> Result<Place, NoMemory>
        requires { length parent.now + length name < PATH_LIMIT }
        ensures { IfOk result (λ made. place_terms made ≡ child parent.now name (added_terms added.value)) }
    {
        Ok(Place {
            path: parent.child(alloc, &name)?,
            name,
            added,
        })
    }

    /// A child with a name that the text doesn't have.
    pub fn generated(
        alloc: Global,
        parent: &Path,
        name: Generated,
        added: Box<Added>,
    ) -> Result<Place, NoMemory>
        requires { length parent.now + length (generated name) < PATH_LIMIT }
        ensures { IfOk result
            (λ made. place_terms made ≡ child parent.now (generated name) (added_terms added.value)) }
    {
        Place::child(alloc, parent, name.name(alloc)?, added)
    }

    /// The node that stands here, with children at these paths.
    pub fn node(
        self,
        alloc: Global,
        kind: Kind,
        paths: &[Path],
        given: Box<Given>,
        own: Box<Own>,
        children: Vec<CoreNode>,
    ) -> Result<Box<CoreNode>, NoMemory>
        ensures { IfOk result (λ node. tree_in node
            ≡ alone (node_at (place_terms self) kind paths.now (given_terms given.value) own.value.priority
            (map variable_data own.value.variables.items) (body_data own.value.body) (trees_of children.items))) }
    {
        let Place { path, name, added } = self;
        let conditions = Given::conditions(given, alloc, added, kind, &path, paths)?;
        let node = Box::into_inner(own).node(name, kind, conditions, children);
        Ok(Box::new(alloc, node)?)
    }
}

/// The path of a child with a name that the text doesn't have.
pub fn child_path(alloc: Global, parent: &Path, name: Generated) -> Result<Path, NoMemory>
    requires { length parent.now + length (generated name) < PATH_LIMIT }
    ensures { IfOk result (λ path. path ≡ below parent.now (generated name)) }
{
    let name = name.name(alloc)?;
    parent.child(alloc, &name)
}

/// What a node has beside its conditions and its children. It is handed on in a box, as they are.
#[derive(Drop)]
pub struct Own {
    pub priority: u32,
    pub variables: Vec<Variable>,
    pub body: Body,
}

impl Own {
    /// These parts, in a box.
    pub fn new(
        alloc: Global,
        priority: u32,
        variables: Vec<Variable>,
        body: Body,
    ) -> Result<Box<Own>, NoMemory>
        ensures priority { IfOk result (λ own. own.value.priority ≡ priority) }
        ensures variables { IfOk result (λ own. own.value.variables ≡ variables) }
        ensures body { IfOk result (λ own. own.value.body ≡ body) }
    {
        let own = Own {
            priority,
            variables,
            body,
        };
        Ok(Box::new(alloc, own)?)
    }

    /// The node of these parts.
    #[tactic(none)]
    fn node(
        self,
        name: Name,
        kind: Kind,
        conditions: Conditions,
        children: Vec<CoreNode>,
    ) -> CoreNode
        ensures { tree_of_node result ≡ Branch (record {
          name = name;
          kind = kind;
          conditions = condition_terms conditions;
          priority = self.priority;
          variables = map variable_data self.variables.items;
          body = body_data self.body;
        }) (trees_of children.items) NoNode }
    {
        CoreNode {
            name,
            kind,
            conditions,
            priority: self.priority,
            variables: self.variables,
            body: self.body,
            children,
        }
    }
}

/// This alone.
pub fn one<T: Drop>(alloc: Global, item: T) -> Result<Vec<T>, NoMemory>
    ensures { IfOk result (λ made. made.items ≡ item ∷ []) }
{
    first(alloc, item, 1)
}

/// This alone, with room for so many.
fn first<T: Drop>(alloc: Global, item: T, room: usize) -> Result<Vec<T>, NoMemory>
    ensures { IfOk result (λ made. made.items ≡ item ∷ []) }
{
    let mut made = Vec::with_capacity(alloc, room)?;
    made.push(item)?;
    Ok(made)
}

/// A node with none beside it, and room for a `#set` before it.
pub fn only(alloc: Global, node: Box<CoreNode>) -> Result<Vec<CoreNode>, NoMemory>
    ensures { IfOk result (λ nodes. nodes.items ≡ node.value ∷ []) }
{
    first(alloc, Box::into_inner(node), 2)
}

/// A node with another behind it, and room for a `#set` before them.
pub fn both(
    alloc: Global,
    front: Box<CoreNode>,
    behind: Box<CoreNode>,
) -> Result<Vec<CoreNode>, NoMemory>
    ensures { IfOk result (λ nodes. nodes.items ≡ front.value ∷ behind.value ∷ []) }
{
    let mut nodes = first(alloc, Box::into_inner(front), 3)?;
    push(&mut nodes, behind)?;
    Ok(nodes)
}

/// Nodes and one more behind them.
pub fn push(nodes: &mut Vec<CoreNode>, node: Box<CoreNode>) -> Result<(), NoMemory>
    ensures { OnOk result (nodes.new.items ≡ nodes.old.items ++ (node.value ∷ [])) }
{
    nodes.push(Box::into_inner(node))?;
    Ok(())
}
