// What the cells and actions say of one node.
ghost use Rattle.std.specs.Prelude.{◌≡◌, ◌<◌, is_some, length};
ghost use Rattle.px_sem.specs.Expressions.{handle_of, is_acknowledged};
ghost use Rattle.px_sem.specs.Guards.{command_is_over};
ghost use Rattle.px_parts.specs.Parts.{AreStanding, plan_in, record_of};
ghost use Rattle.px_micro.specs.Records.{is_done};

use crate::states::is_final_handle;
use px_flat::{Abort, Act};
use px_parts::Parts;
use px_value::Value;

fn is_done(abort: Abort) -> bool
    ensures { result ≡ is_done abort }
{
    abort == Abort::Done
}

/// Whether the outside has said something of the node's command.
pub fn is_handle_known(parts: &Parts, node: u32) -> bool
    requires stand { AreStanding parts.now }
    requires node { node < length (plan_in parts.now) }
    ensures { result ≡ is_some (handle_of (record_of parts.now node).action) }
{
    parts.cells.get(parts.flat.handle_cell(node)).is_known()
}

/// Whether the node's update was acknowledged.
pub fn is_acknowledged(parts: &Parts, node: u32) -> bool
    requires stand { AreStanding parts.now }
    requires node { node < length (plan_in parts.now) }
    ensures { result ≡ is_acknowledged (record_of parts.now node).action }
{
    match parts.cells.get(parts.flat.acknowledgement_cell(node)) {
        Value::Boolean(truth) => *truth,
        _ => false,
    }
}

/// Whether the outside is done with the node's command: its abort is done, or its handle is a last one.
pub fn is_command_over(parts: &Parts, node: u32) -> bool
    requires stand { AreStanding parts.now }
    requires node { node < length (plan_in parts.now) }
    ensures { result ≡ command_is_over (record_of parts.now node).action }
{
    match parts.actions.of(node) {
        Act::Sent { abort, .. } => {
            is_done(*abort) || is_final_handle(parts.cells.get(parts.flat.handle_cell(node)))
        }
        _ => false,
    }
}
