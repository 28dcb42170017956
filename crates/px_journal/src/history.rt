// The records of a journal, one behind the other, up to the first closed gate.
ghost use Rattle.std.specs.Prelude.{◌≡◌, ◌≤◌, ◌<◌, [], ℕ, length, IsTrue, IfOk, IsErrOf};
ghost use Rattle.std.specs.Option.{ForSome};
ghost use Rattle.px_journal.specs.Damage.{Damaged};
ghost use Rattle.px_journal.specs.Goes.{Reads};
ghost use Rattle.px_journal.specs.Journal.{WereRead};
ghost use Rattle.px_journal.specs.Layout.{next_gate, Front};
ghost use Rattle.px_journal.specs.declared.fault.RecoverWhy.TheVariants as whys;

use crate::fault::RecoverWhy;
use crate::layout::{RECORD_LIMIT, TEXT_PLACE};
use crate::record::next_record;
use crate::version::Version;
use crate::window::Window;
use px_event::Entry;
use px_ports::Disk;
use px_value::Name;
use std::alloc::Global;

/// Entries, the names of their interfaces, and the place of the closed gate behind them.
#[derive(Drop)]
pub(crate) struct History {
    pub(crate) entries: Vec<Entry>,
    pub(crate) names: Vec<Option<Name>>,
    pub(crate) gate: u64,
}

/// What stands behind a plan's text, in a file of `size` bytes.
pub(crate) fn read_history<D: Disk>(
    alloc: Global,
    disk: &mut D,
    size: u64,
    version: Version,
    plan: &[u8],
) -> Result<History, RecoverWhy>
    requires attached { IsTrue (D.is_attached disk.old) }
    requires short { length plan.now ≤ 1048576 }
    requires within { next_gate version plan.now [] < size }
    requires size { ForSome (D.content disk.old) (λ told. size ≡ length told) }
    requires front { ForSome (D.content disk.old) (λ told. Front version told plan.now []) }

    ensures few { IfOk result (λ read. length read.entries.items ≤ 100000) }
    ensures read { IfOk result (λ read. WereRead (D.content disk.old) version plan.now
        read.entries.items read.names.items read.gate) }

    ensures no_journal { IsErrOf result whys.NoJournal → ⊥ }
    ensures damaged { (at : ℕ) → IsErrOf result (whys.Damaged at)
        → ForSome (D.content disk.old) (λ told. Damaged told at) }

    ensures reads { Reads D.Disk (IsErrOf result whys.DiskFault) disk.old disk.new }
{
    let mut gate = TEXT_PLACE + plan.len() as u64;
    let mut entries = Vec::new(alloc);
    let mut names = Vec::new(alloc);
    let mut window = Window::new(alloc)?;
    loop {
        let is_full = entries.len() == RECORD_LIMIT as usize;
        match next_record(alloc, disk, version, gate, size, is_full, &mut window)? {
            Some((named, next)) => {
                entries.push(named.entry)?;
                names.push(named.name)?;
                gate = next;
            }
            None => {
                return Ok(History {
                    entries,
                    names,
                    gate,
                });
            }
        }
    }
}
