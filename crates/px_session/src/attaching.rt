// The disk of a session, bound to its journal's name.
ghost use Rattle.std.specs.Prelude.{◌≡◌, None, IfOk, IfErr};
ghost use Rattle.px_session.specs.Attaching.{IsAttached, IsNotAttached};

use px_ports::{Disk, DiskFault};

/// The disk, attached under this name; where that fails, the disk as it is then.
pub(crate) fn attached<D: Disk>(disk: D, name: &str) -> Result<D, D>
    requires unbound { D.bound_to disk ≡ None }
    ensures attached { IfOk result (IsAttached D.Disk name.now disk) }
    ensures failed { IfErr result (IsNotAttached D.Disk name.now disk) }
{
    let mut disk = disk;
    match disk.attach(name) {
        Ok(()) => Ok(disk),
        Err(DiskFault) => Err(disk),
    }
}
