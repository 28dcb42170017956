// The kind of each node of a plan, by its path.
ghost use Rattle.std.specs.Prelude.{◌≡◌, ◌++◌, [], ◌∷◌, IsTrue, IfOk, OnOk};
ghost use Rattle.std.specs.List.{find, list_all};
ghost use Rattle.std.specs.Option.{option_map};
ghost use Rattle.px_core.specs.Fit.{IsFit};
ghost use Rattle.px_core.specs.Plan.{tree_of, sites, is_same, below_it};
ghost use Rattle.px_script.specs.Telling.{TellKinds, all_kinds, kinds_under, has_short};

use indexmap::IndexMap;
use px_core::{CoreNode, Kind, Plan};
use px_value::{NoMemory, Path};
use std::alloc::Global;
use std::snapshot::Snapshot;

/// The kinds of a plan's nodes, by path.
#[derive(Drop)]
pub struct Kinds {
    kinds: IndexMap<Path, Kind>,
    /// The plan. It has no bytes: contracts alone see it.
    plan: Snapshot<Plan>,
    ghost told: { TellKinds kinds.entries (all_kinds (sites (tree_of plan.value))) },
}

// Tells the kind at a path, where none is told yet.
fn tell(kinds: &mut IndexMap<Path, Kind>, path: Path, kind: Kind) -> Result<(), NoMemory>
    ensures { OnOk result (TellKinds kinds.new.entries (kinds.old.entries ++ (path, kind) ∷ [])) }
{
    if !kinds.contains_key(&path) {
        kinds.insert(path, kind)?;
    }
    Ok(())
}

// Tells the kinds of all nodes below one, which has this path.
fn tell_below(
    alloc: Global,
    node: &CoreNode,
    path: &Path,
    kinds: &mut IndexMap<Path, Kind>,
) -> Result<(), NoMemory>
    requires { IsTrue (list_all has_short (kinds_under path.now (below_it node.now))) }
    ensures { OnOk result (TellKinds kinds.new.entries
        (kinds.old.entries ++ kinds_under path.now (below_it node.now))) }
{
    for child in &node.children {
        let path = path.child(alloc, &child.name)?;
        tell(kinds, path.copy(alloc)?, child.kind)?;
        tell_below(alloc, child, &path, kinds)?;
    }
    Ok(())
}

impl Kinds {
    ghost use Rattle.px_script.specs.Kinds.{plan_of};

    /// The kinds of the nodes of a plan.
    pub fn of(alloc: Global, plan: &Plan) -> Result<Kinds, NoMemory>
        requires { IsFit (tree_of plan.now) }
        ensures { IfOk result (λ kinds. plan_of kinds ≡ sites (tree_of plan.now)) }
    {
        let mut kinds = IndexMap::with_capacity(alloc, plan.nodes() as usize)?;
        let path = Path::root(alloc, &plan.root.name)?;
        tell(&mut kinds, path.copy(alloc)?, plan.root.kind)?;
        tell_below(alloc, &plan.root, &path, &mut kinds)?;
        Ok(Kinds {
            kinds,
            plan: Snapshot::of(plan),
        })
    }

    /// The kind of the node at a path; None exactly where the plan has no such node.
    pub fn get(&self, path: &Path) -> Option<Kind>
        ensures { result ≡ option_map (λ site. site.head.kind) (find (λ site. is_same path.now site.path) (plan_of self.now)) }
    {
        self.kinds.get(path).copied()
    }
}
