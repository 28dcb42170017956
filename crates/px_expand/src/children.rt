// The children that the text has of a node.
ghost use Rattle.std.specs.Prelude.{◌≡◌, ◌+◌, ◌<◌, ◌≤◌, ◌∷◌, ◌++◌, [], length, map, IfOk, OnOk};
ghost use Rattle.indexmap.specs.IndexMap.{insert_entry};
ghost use Rattle.px_value.specs.Path.{below};
ghost use Rattle.px_core.specs.Plan.{is_same};
ghost use Rattle.px_syntax.specs.Block.{action_of, actions_in_turn, branch_of};
ghost use Rattle.px_expand.specs.Core.{actions_seen, branch_name, name_of};
ghost use Rattle.px_forms.specs.Names.{generated};
ghost use Rattle.px_expand.specs.Children.{names_of, paths_of, seen};
ghost use Rattle.px_scope.specs.Scope.{table};
ghost use Rattle.px_expand.specs.Size.{actions_reach};

use crate::names::named;
use indexmap::IndexMap;
use px_forms::Generated;
use px_syntax::{Action, Branch};
use px_value::{Name, NoMemory, PATH_LIMIT, Path};
use std::alloc::{AllocError, Global};

/// The names of a node's children and their paths, in their order.
#[derive(Drop)]
pub(crate) struct Listed {
    pub(crate) names: Vec<Name>,
    pub(crate) paths: Vec<Path>,
}

/// The children of a node: their paths by their names, and both in their order.
#[derive(Drop)]
pub(crate) struct Children {
    pub(crate) by_name: IndexMap<Name, Path>,
    pub(crate) listed: Listed,
}

impl Children {
    pub(crate) fn none(alloc: Global) -> Children
        ensures by_name { result.by_name.entries ≡ [] }
        ensures names { result.listed.names.items ≡ [] }
        ensures paths { result.listed.paths.items ≡ [] }
    {
        Children {
            by_name: IndexMap::new(alloc),
            listed: Listed {
                names: Vec::new(alloc),
                paths: Vec::new(alloc),
            },
        }
    }

    /// Makes room for so many more.
    fn reserve(&mut self, count: usize) -> Result<(), NoMemory>
        ensures by_name { OnOk result (self.new.by_name.entries ≡ self.old.by_name.entries) }
        ensures names { OnOk result (self.new.listed.names.items ≡ self.old.listed.names.items) }
        ensures paths { OnOk result (self.new.listed.paths.items ≡ self.old.listed.paths.items) }
    {
        self.by_name.reserve(count)?;
        self.listed.names.reserve_exact(count)?;
        self.listed.paths.reserve_exact(count)
    }

    /// A child of this name more. After an error the children are of no use.
    pub(crate) fn push(&mut self, alloc: Global, parent: &Path, name: Name) -> Result<(), NoMemory>
        requires { length parent.now + length name < PATH_LIMIT }
        ensures by_name { OnOk result (self.new.by_name.entries
            ≡ insert_entry is_same self.old.by_name.entries name (below parent.now name)) }
        ensures names { OnOk result (self.new.listed.names.items ≡ self.old.listed.names.items ++ (name ∷ [])) }
        ensures paths { OnOk result
            (self.new.listed.paths.items ≡ self.old.listed.paths.items ++ (below parent.now name ∷ [])) }
    {
        let path = parent.child(alloc, &name)?;
        self.listed.names.push(name.copy(alloc)?)?;
        self.listed.paths.push(path.copy(alloc)?)?;
        self.by_name.insert(name, path)?;
        Ok(())
    }

    /// The actions of the block at a path.
    pub(crate) fn of_actions(
        alloc: Global,
        path: &Path,
        actions: &[Action],
    ) -> Result<Children, NoMemory>
        requires { length path.now + actions_reach 1 (actions_in_turn (map action_of actions.now)) ≤ PATH_LIMIT }
        ensures by_name { IfOk result (λ made. made.by_name.entries
            ≡ table (actions_seen path.now 1 (actions_in_turn (map action_of actions.now)))) }
        ensures names { IfOk result (λ made. made.listed.names.items
            ≡ names_of (actions_seen path.now 1 (actions_in_turn (map action_of actions.now)))) }
        ensures paths { IfOk result (λ made. made.listed.paths.items
            ≡ paths_of (actions_seen path.now 1 (actions_in_turn (map action_of actions.now)))) }
    {
        let mut children = Children::none(alloc);
        children.reserve(actions.len())?;
        for (number, action) in actions.iter().enumerate() {
            let name = name_of(alloc, number + 1, action)?;
            children.push(alloc, path, name)?;
        }
        Ok(children)
    }

    /// The branch of an `if` or a loop whose children stand below a path.
    pub(crate) fn of_branch(
        alloc: Global,
        path: &Path,
        unlabelled: Generated,
        branch: &Branch,
    ) -> Result<Children, NoMemory>
        requires { length path.now + length (branch_name (generated unlabelled) (branch_of branch.now)) < PATH_LIMIT }
        ensures by_name { IfOk result (λ made. made.by_name.entries
            ≡ table (seen path.now (branch_name (generated unlabelled) (branch_of branch.now)) ∷ [])) }
        ensures names { IfOk result (λ made. made.listed.names.items
            ≡ branch_name (generated unlabelled) (branch_of branch.now) ∷ []) }
        ensures paths { IfOk result (λ made. made.listed.paths.items
            ≡ below path.now (branch_name (generated unlabelled) (branch_of branch.now)) ∷ []) }
    {
        let mut children = Children::none(alloc);
        let name = named(alloc, &branch.label, unlabelled)?;
        children.push(alloc, path, name)?;
        Ok(children)
    }
}

/// The name of the action with this place in its block.
fn name_of(alloc: Global, place: usize, action: &Action) -> Result<Name, NoMemory>
    ensures { IfOk result (λ name. name ≡ name_of place (action_of action.now)) }
{
    match u32::try_from(place) {
        Ok(place) => named(alloc, &action.label, Generated::Action(place)),
        // As many actions as 32 bits don't count have no room in memory.
        Err(_) => Err(AllocError),
    }
}
