// Closing an `if` that was opened, and a chain of them.
ghost use Rattle.std.specs.Prelude.{◌≡◌, drop, length, IfOk, OnOk};
ghost use Rattle.px_core.specs.Plan.{NoNode};
ghost use Rattle.px_expand.specs.Chain.{all_closed, closed};
ghost use Rattle.px_forms.specs.Placed.{tree_in};

use crate::opened::OpenIf;
use px_core::CoreNode;
use px_forms::{both, conditional, only};
use px_scope::Scope;
use px_value::NoMemory;
use std::alloc::Global;

impl OpenIf {
    /// The `if` with nothing behind its branch.
    pub(crate) fn close(self, alloc: Global) -> Result<Box<CoreNode>, NoMemory>
        ensures { IfOk result (λ node. tree_in node ≡ closed self NoNode) }
    {
        let OpenIf {
            place,
            test,
            paths,
            branch,
        } = self;
        let nodes = only(alloc, branch)?;
        conditional(alloc, place, test, paths, nodes)
    }

    /// The `if` with this behind its branch.
    pub(crate) fn close_before(
        self,
        alloc: Global,
        behind: Box<CoreNode>,
    ) -> Result<Box<CoreNode>, NoMemory>
        ensures { IfOk result (λ node. tree_in node ≡ closed self (tree_in behind)) }
    {
        let OpenIf {
            place,
            test,
            paths,
            branch,
        } = self;
        let nodes = both(alloc, branch, behind)?;
        conditional(alloc, place, test, paths, nodes)
    }
}

/// The `if`s of a chain round the last of them, from the inner ones out.
pub(crate) fn close_all(
    alloc: Global,
    scope: &mut Scope,
    outer: Vec<OpenIf>,
    node: Box<CoreNode>,
) -> Result<Box<CoreNode>, NoMemory>
    ensures scope { OnOk result (scope.new ≡ drop (length outer.items) scope.old) }
    ensures node { IfOk result (λ made. tree_in made ≡ all_closed outer.items (tree_in node)) }
{
    let mut outer = outer;
    let mut node = node;
    while let Some(opened) = outer.pop() {
        scope.leave();
        node = opened.close_before(alloc, node)?;
    }
    Ok(node)
}
