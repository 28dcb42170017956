// The conditions that the items of a block give.
ghost use Rattle.std.specs.Prelude.{◌≡◌, ◌<◌, length, map, IfOk};
ghost use Rattle.px_syntax.specs.Block.{item_data};
ghost use Rattle.px_forms.specs.Shown.{given_terms};
ghost use Rattle.px_expand.specs.Items.{given_by};

use px_forms::Given;
use px_scope::{Scope, given_for};
use px_syntax::{Condition, Item};
use px_value::NoMemory;
use std::alloc::Global;

/// The conditions that the items give, in the scope inside their block.
pub(crate) fn given_by(alloc: Global, scope: &Scope, items: &[Item]) -> Result<Box<Given>, NoMemory>
    requires { 0 < length scope.now }
    ensures { IfOk result (λ made. given_terms made.value ≡ given_by scope.now (map item_data items.now)) }
{
    let given = Given {
        start: given_for(alloc, scope, Condition::Start, items)?,
        end: given_for(alloc, scope, Condition::End, items)?,
        exit: given_for(alloc, scope, Condition::Exit, items)?,
        skip: given_for(alloc, scope, Condition::Skip, items)?,
        repeat: given_for(alloc, scope, Condition::Repeat, items)?,
        pre: given_for(alloc, scope, Condition::Pre, items)?,
        post: given_for(alloc, scope, Condition::Post, items)?,
        invariant: given_for(alloc, scope, Condition::Invariant, items)?,
    };
    Ok(Box::new(alloc, given)?)
}
