// An `if` that is not closed.
ghost use Rattle.std.specs.Prelude.{◌+◌, ◌≤◌, length};

use px_core::{CoreNode, Expr};
use px_forms::Place;
use px_value::Path;

/// An `if` without what stands behind its branch.
#[derive(Drop)]
pub(crate) struct OpenIf {
    pub(crate) place: Place,
    pub(crate) test: Box<Expr>,
    /// Of the branch, and of what stands behind it.
    pub(crate) paths: Vec<Path>,
    pub(crate) branch: Box<CoreNode>,
    ghost short: { length place.path + 5 ≤ 5000 },
}
