// The last line: how the plan stands.
ghost use Rattle.std.specs.Prelude.{◌≡◌, ◌++◌, OnOk, OnErr};
ghost use Rattle.px_sem.specs.Text.{standing_text};
ghost use Rattle.px_trace.specs.Appending.{Keeps};

use crate::append::{keep_or_truncate, push_all};
use crate::steps::push_failure;
use px_sem::Standing;
use px_value::{Failure, NoMemory, Outcome};
use std::alloc::Global;

/// Appends how the plan stands.
///
/// After `NoMemory` the text is as before.
pub fn push_standing(_alloc: Global, standing: &Standing, out: &mut Vec<u8>) -> Result<(), NoMemory>
    ensures ok { OnOk result (out.new.items ≡ out.old.items ++ standing_text standing.now) }
    ensures err { OnErr result (out.new.items ≡ out.old.items) }
{
    let before = out.len();
    let pushed = match standing {
        Standing::Running => push_all(out, &["plan running\n"]),
        Standing::Finished { outcome, failure } => push_finished(*outcome, *failure, out),
    };
    keep_or_truncate(pushed, before, out)
}

fn push_finished(
    outcome: Outcome,
    failure: Option<Failure>,
    out: &mut Vec<u8>,
) -> Result<(), NoMemory>
    ensures ok { OnOk result (out.new.items ≡ out.old.items ++ standing_text (Standing.Finished outcome failure)) }
    ensures err { OnErr result (Keeps out.old.items out.new.items) }
{
    push_all(out, &["plan finished ", outcome.word()])?;
    push_failure(failure, out)?;
    push_all(out, &["\n"])
}
