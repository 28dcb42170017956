// A write that is synced before the next call.
ghost use Rattle.std.specs.Prelude.{◌≤◌, length, IsTrue, IsErr};
ghost use Rattle.std.specs.Option.{ForSome};
ghost use Rattle.px_journal.specs.Crash.{Puts};
ghost use Rattle.px_journal.specs.Goes.{Goes};

use px_ports::{Disk, DiskFault};

/// Writes the bytes at this place, and syncs.
pub(crate) fn put<D: Disk>(disk: &mut D, at: u64, bytes: &[u8]) -> Result<(), DiskFault>
    requires attached { IsTrue (D.is_attached disk.old) }
    requires within { ForSome (D.content disk.old) (λ told. at ≤ length told) }
    ensures puts { Puts D.images at bytes.now (D.content disk.old) (D.content disk.new)
        (D.moments disk.old) (D.moments disk.new) result }
    ensures goes { Goes D.Disk (IsErr result) disk.old disk.new }
{
    disk.write_at(at, bytes)?;
    disk.sync()
}
