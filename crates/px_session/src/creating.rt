// A new session: the journal of a plan's text, and the executive over it.
ghost use Rattle.std.specs.Prelude.{◌≡◌, ◌≤◌, ℕ, [], None, Some, length, IsTrue, IsFalse, IfOk, IfErr, OnOk};
ghost use Rattle.std.specs.Option.{ForSome};
ghost use Rattle.px_exec.specs.Opening.{GivesNames};
ghost use Rattle.px_journal.specs.Crash.{OldOrNew};
ghost use Rattle.px_journal.specs.Goes.{Goes, LeavesAtMost};
ghost use Rattle.px_journal.specs.Journal.{IsReady, IsUntouched, FailsBy, disk_after};
ghost use Rattle.px_journal.specs.Layout.{is_nothing};
ghost use Rattle.px_journal.specs.declared.fault.CreateWhy.TheVariants as whys;
ghost use Rattle.px_sem.specs.Run.{run};
ghost use Rattle.px_sem.specs.Stepper.{Pending};
ghost use Rattle.px_session.specs.Creating.{Creates, IsNotCreated, version_for};

use crate::attaching::attached;
use px_event::Names;
use px_exec::{Exec, OpenFault};
use px_journal::{CreateFault, CreateWhy, Journal};
use px_ports::Disk;
use px_sem::Stepper;
use std::alloc::Global;

/// Binds the disk to the journal's name, makes the journal of a plan's text there, and opens an executive over it, whose
/// history may grow to `limit` events, from 1 to 100,000. The stepper has settled the start of the plan. The journal is of the
/// second version exactly where a thread has a name, and each entry is kept with the name of its thread.
///
/// `Exists` comes exactly where a journal stands there already, and nothing is written then; `DiskFault` only where a call
/// of the disk failed; `NoMemory` where memory ran out before the first write, or behind the last: then the journal stands
/// for the text and no event.
pub fn create<S: Stepper, D: Disk>(
    alloc: Global,
    disk: D,
    name: &str,
    text: &[u8],
    stepper: S,
    limit: u32,
    names: Names,
) -> Result<Exec<S, D>, CreateFault<D>>
    requires unbound { D.bound_to disk ≡ None }
    requires short { length text.now ≤ 1048576 }
    requires nothing { (S.state stepper).pending ≡ Pending.Nothing }
    requires started { run (S.state stepper).nodes [] ≡ Some (S.state stepper).world }
    requires least { 1 ≤ limit }
    requires most { limit ≤ 100000 }

    ensures created { IfOk result (Creates D.Disk name.now text.now stepper limit names disk) }
    ensures refused { IfErr result (IsNotCreated D.Disk name.now text.now names disk) }
{
    let disk = match attached(disk, name) {
        Ok(disk) => disk,
        Err(disk) => {
            return Err(CreateFault {
                disk,
                why: CreateWhy::DiskFault,
            });
        }
    };
    let journal = new_journal(alloc, disk, text, names)?;
    match Exec::open(alloc, journal, stepper, Vec::new(alloc), limit) {
        Ok(exec) => Ok(exec),
        Err(OpenFault { journal, why: _ }) => Err(CreateFault {
            disk: journal.into_disk(),
            why: CreateWhy::NoMemory,
        }),
    }
}

/// The journal of a plan's text, for the entries of threads with these names.
fn new_journal<D: Disk>(
    alloc: Global,
    disk: D,
    text: &[u8],
    names: Names,
) -> Result<Journal<D>, CreateFault<D>>
    requires attached { IsTrue (D.is_attached disk) }
    requires short { length text.now ≤ 1048576 }

    ensures made { IfOk result (λ journal. IsReady D.Disk journal text.now []) }
    ensures version { IfOk result (λ journal. journal.version ≡ version_for names) }
    ensures gives { IfOk result (λ journal. GivesNames journal names) }
    ensures only_nothing { OnOk result (ForSome (D.content disk) (λ told. IsTrue (is_nothing told))) }

    ensures exists { FailsBy result whys.Exists → ForSome (D.content disk) (λ told. IsFalse (is_nothing told)) }
    ensures untouched { ForSome (D.content disk) (λ told. IsFalse (is_nothing told)
        → IsUntouched D.Disk disk (disk_after result)) }
    ensures no_memory { FailsBy result whys.NoMemory → disk_after result ≡ disk }

    ensures old_or_new { LeavesAtMost D.Disk (OldOrNew (D.images (D.moments disk)) text.now) disk (disk_after result) }
    ensures goes { Goes D.Disk (FailsBy result whys.DiskFault) disk (disk_after result) }
{
    if names.is_empty() {
        Journal::create(alloc, disk, text)
    } else {
        Journal::create_named(alloc, disk, text, names)
    }
}
