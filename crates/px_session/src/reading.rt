// The journal that stands on a disk.
ghost use Rattle.std.specs.Prelude.{◌≡◌, None, IfOk, IfErr};
ghost use Rattle.px_session.specs.Reading.{IsRead, IsNotRead};

use crate::attaching::attached;
use px_journal::{Journal, RecoverFault, RecoverWhy, Recovered};
use px_ports::Disk;
use std::alloc::Global;

/// Binds the disk to the journal's name, and reads the journal there, with the names of its entries. Nothing is written, no
/// plan compiled, and no event run.
///
/// `DiskFault` comes only where a call of the disk failed, `NoJournal` and `Damaged` by the disk's bytes.
pub fn read_journal<D: Disk>(
    alloc: Global,
    disk: D,
    name: &str,
) -> Result<Recovered<D>, RecoverFault<D>>
    requires { D.bound_to disk ≡ None }
    ensures read { IfOk result (IsRead D.Disk name.now disk) }
    ensures refused { IfErr result (IsNotRead D.Disk name.now disk) }
{
    match attached(disk, name) {
        Ok(disk) => Journal::recover(alloc, disk),
        Err(disk) => Err(RecoverFault {
            disk,
            why: RecoverWhy::DiskFault,
        }),
    }
}
