// Which variable a node writes, and which of two writers goes first.
ghost use Rattle.std.specs.Prelude.{◌≡◌, ◌<◌, length};
ghost use Rattle.px_flat.specs.Flat.{plan_of};
ghost use Rattle.px_assign.specs.Conflicts.{variable_of, priority_of, goes_before};

use px_flat::{Flat, NumberedBody};

/// The first cell of the variable that a node writes, or of the array of which it writes an element, if it writes one:
/// the target of an assignment, or of a command's result.
pub fn variable_of(flat: &Flat, node: u32) -> Option<u32>
    requires { node < length (plan_of flat.now) }
    ensures { result ≡ variable_of (plan_of flat.now) node }
{
    match &flat.node(node).body {
        NumberedBody::Assign { target, .. } => Some(target.first),
        NumberedBody::Command { result, .. } => match result {
            Some(target) => Some(target.first),
            None => None,
        },
        NumberedBody::Nothing | NumberedBody::Update { .. } => None,
    }
}

fn priority_of(flat: &Flat, node: u32) -> u32
    requires { node < length (plan_of flat.now) }
    ensures { result ≡ priority_of (plan_of flat.now) node }
{
    flat.row(node).head.priority
}

/// Whether a writer goes before another: it has the lower priority number, or the same and is earlier in preorder.
pub(crate) fn goes_before(flat: &Flat, a: u32, b: u32) -> bool
    requires a { a < length (plan_of flat.now) }
    requires b { b < length (plan_of flat.now) }
    ensures { result ≡ goes_before (plan_of flat.now) a b }
{
    let (first, other) = (priority_of(flat, a), priority_of(flat, b));
    first < other || (first == other && a < b)
}
