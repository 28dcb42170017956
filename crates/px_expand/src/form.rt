// What the form of a block adds to conditions.
ghost use Rattle.std.specs.Prelude.{◌≡◌, IfOk, OnOk};
ghost use Rattle.std.specs.Option.{option_copied};
ghost use Rattle.px_forms.specs.Shown.{added_terms, given_terms};
ghost use Rattle.px_expand.specs.Core.{follows, formed};

use px_forms::{Added, Given, after, sequence, tries};
use px_syntax::BlockForm;
use px_value::{NoMemory, Path};
use std::alloc::Global;

/// What a block's form adds to the conditions of the List.
pub(crate) fn formed(
    alloc: Global,
    form: BlockForm,
    paths: &[Path],
    given: &mut Given,
) -> Result<(), NoMemory>
    ensures { OnOk result (given_terms given.new ≡ formed form paths.now (given_terms given.old)) }
{
    match form {
        BlockForm::Plain | BlockForm::Sequence => sequence(alloc, paths, given),
        BlockForm::Try => tries(alloc, paths, given),
        BlockForm::NodeList | BlockForm::UncheckedSequence | BlockForm::Concurrence => Ok(()),
    }
}

/// What a block's form adds to the conditions of a child that stands behind another, or is the first.
pub(crate) fn follows(
    alloc: Global,
    form: BlockForm,
    behind: Option<&Path>,
) -> Result<Box<Added>, NoMemory>
    ensures { IfOk result (λ made. added_terms made.value ≡ follows form (option_copied behind.entry)) }
{
    match (form, behind) {
        (BlockForm::NodeList | BlockForm::Concurrence, _) | (_, None) => Added::nothing(alloc),
        (_, Some(path)) => after(alloc, path),
    }
}
