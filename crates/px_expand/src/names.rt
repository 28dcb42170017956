// The names of nodes.
ghost use Rattle.std.specs.Prelude.{◌≡◌, length, IfOk};
ghost use Rattle.px_forms.specs.Names.{generated};
ghost use Rattle.px_expand.specs.Names.{named};

use px_forms::Generated;
use px_syntax::Identifier;
use px_value::{Name, NoMemory};
use std::alloc::Global;

/// The label of a node, or the name that it has without one.
pub(crate) fn named(
    alloc: Global,
    label: &Option<Identifier>,
    unlabelled: Generated,
) -> Result<Name, NoMemory>
    ensures { IfOk result (λ name. name ≡ named label.now (generated unlabelled)) }
{
    match label {
        Some(label) => label.name.copy(alloc),
        None => unlabelled.name(alloc),
    }
}

/// How many bytes `named` has, without making it.
pub(crate) fn name_length(label: &Option<Identifier>, unlabelled: Generated) -> usize
    ensures { result ≡ length (named label.now (generated unlabelled)) }
{
    match label {
        Some(label) => label.name.as_str().len(),
        None => unlabelled.length(),
    }
}
