// A journal read from a disk.
//
// It writes nothing: what stands behind the first closed gate may stay there, since an append closes the next gate
// before it opens this one.
ghost use Rattle.std.specs.Prelude.{◌≡◌, ◌≤◌, [], ℕ, List, length, IsTrue, IsFalse, IfOk, IsErrOf, vec_capacity};
ghost use Rattle.std.specs.Option.{ForSome};
ghost use Rattle.px_event.specs.declared.named.NamedEntry.{NamedEntry as AnyNamed};
ghost use Rattle.px_journal.specs.Damage.{Damaged};
ghost use Rattle.px_journal.specs.Goes.{Goes, Reads};
ghost use Rattle.px_journal.specs.Journal.{IsReady, IsReadyAs, IsSynced, IsUnwritten, IsNotRecovered, IsUndamaged, WereRead, disk_recovered};
ghost use Rattle.px_journal.specs.Layout.{entries, interfaces, is_nothing, Stands};
ghost use Rattle.px_journal.specs.declared.fault.RecoverWhy.TheVariants as whys;

use crate::fault::{RecoverFault, RecoverWhy};
use crate::heading::{read_heading, read_text};
use crate::history::{History, read_history};
use crate::journal::{BUFFER_ROOM, Journal, Recovered};
use crate::layout::TEXT_PLACE;
use crate::version::Version;
use px_event::Names;
use px_ports::Disk;
use std::alloc::Global;

/// A version, a text, what stands behind it, and the buffer for further records.
#[derive(Drop)]
struct Read {
    version: Version,
    plan: Vec<u8>,
    history: History,
    buffer: Vec<u8>,
}

impl<D: Disk> Journal<D> {
    /// Reads the journal of an attached disk. It begins with a sync and writes nothing. The journal is of the version
    /// that its bytes tell, and has no names for further entries.
    ///
    /// `NoJournal` comes exactly where the file has fewer than 13 bytes or its first is 0, and `Damaged` exactly where
    /// its first isn't 0 and the layout is broken, at the first place that is; an image that a journal's calls left is
    /// never damaged. `DiskFault` comes just where a call of the disk failed. Behind every other answer a crash leaves
    /// just what a read gives.
    pub fn recover(alloc: Global, disk: D) -> Result<Recovered<D>, RecoverFault<D>>
        requires { IsTrue (D.is_attached disk) }

        ensures read { IfOk result (λ read. IsReady D.Disk read.journal read.plan.items read.history.items) }
        ensures named { IfOk result (λ read. (named : List AnyNamed)
            × IsReadyAs D.Disk read.journal read.plan.items named
            × (entries named ≡ read.history.items) × (interfaces named ≡ read.names.items)) }
        ensures unnamed { IfOk result (λ read. read.journal.names ≡ []) }
        ensures stands { IfOk result (λ read. ForSome (D.content disk)
            (λ told. Stands told read.plan.items read.history.items)) }

        ensures no_journal { IsNotRecovered result whys.NoJournal
            → ForSome (D.content disk) (λ told. IsTrue (is_nothing told)) }
        ensures damaged { (at : ℕ) → IsNotRecovered result (whys.Damaged at)
            → ForSome (D.content disk) (λ told. IsFalse (is_nothing told) × Damaged told at) }
        ensures never_undamaged { (at : ℕ) → IsNotRecovered result (whys.Damaged at)
            → ForSome (D.content disk) (λ _. IsUndamaged D.Disk disk → ⊥) }

        ensures writes_nothing { IsUnwritten D.Disk disk (disk_recovered result) }
        ensures same { ¬ IsNotRecovered result whys.DiskFault → D.content (disk_recovered result) ≡ D.content disk }
        ensures synced { ¬ IsNotRecovered result whys.DiskFault → IsSynced D.Disk (disk_recovered result) }
        ensures goes { Goes D.Disk (IsNotRecovered result whys.DiskFault) disk (disk_recovered result) }
    {
        let mut disk = disk;
        match read_journal(alloc, &mut disk) {
            Ok(read) => Ok(Recovered {
                journal: Journal {
                    disk,
                    version: read.version,
                    names: Names::new(alloc),
                    gate: read.history.gate,
                    count: read.history.entries.len() as u32,
                    buffer: read.buffer,
                },
                plan: read.plan,
                history: read.history.entries,
                names: read.history.names,
            }),
            Err(why) => Err(RecoverFault { disk, why }),
        }
    }
}

/// Syncs, and reads what the bytes stand for.
fn read_journal<D: Disk>(alloc: Global, disk: &mut D) -> Result<Read, RecoverWhy>
    requires { IsTrue (D.is_attached disk.old) }

    ensures room { IfOk result (λ read. 9385 ≤ vec_capacity read.buffer) }
    ensures short { IfOk result (λ read. length read.plan.items ≤ 1048576) }
    ensures few { IfOk result (λ read. length read.history.entries.items ≤ 100000) }
    ensures read { IfOk result (λ read. WereRead (D.content disk.old) read.version read.plan.items
        read.history.entries.items read.history.names.items read.history.gate) }
    ensures same { ¬ IsErrOf result whys.DiskFault → D.content disk.new ≡ D.content disk.old }
    ensures synced { ¬ IsErrOf result whys.DiskFault → IsSynced D.Disk disk.new }

    ensures no_journal { IsErrOf result whys.NoJournal
        → ForSome (D.content disk.old) (λ told. IsTrue (is_nothing told)) }
    ensures damaged { (at : ℕ) → IsErrOf result (whys.Damaged at)
        → ForSome (D.content disk.old) (λ told. IsFalse (is_nothing told) × Damaged told at) }

    ensures writes_nothing { IsUnwritten D.Disk disk.old disk.new }
    ensures goes { Goes D.Disk (IsErrOf result whys.DiskFault) disk.old disk.new }
{
    disk.sync()?;
    let buffer = Vec::with_capacity(alloc, BUFFER_ROOM)?;
    let (version, plan, history) = read_stable(alloc, disk)?;
    Ok(Read {
        version,
        plan,
        history,
        buffer,
    })
}

/// Reads what the bytes stand for: in a version, a text and what stands behind it.
fn read_stable<D: Disk>(
    alloc: Global,
    disk: &mut D,
) -> Result<(Version, Vec<u8>, History), RecoverWhy>
    requires { IsTrue (D.is_attached disk.old) }

    ensures short { IfOk result (λ read. length read.1.items ≤ 1048576) }
    ensures few { IfOk result (λ read. length read.2.entries.items ≤ 100000) }
    ensures read { IfOk result (λ read. WereRead (D.content disk.old) read.0 read.1.items
        read.2.entries.items read.2.names.items read.2.gate) }

    ensures no_journal { IsErrOf result whys.NoJournal
        → ForSome (D.content disk.old) (λ told. IsTrue (is_nothing told)) }
    ensures damaged { (at : ℕ) → IsErrOf result (whys.Damaged at)
        → ForSome (D.content disk.old) (λ told. IsFalse (is_nothing told) × Damaged told at) }

    ensures reads { Reads D.Disk (IsErrOf result whys.DiskFault) disk.old disk.new }
{
    let size = disk.len()?;
    if size < TEXT_PLACE {
        return Err(RecoverWhy::NoJournal);
    }
    let (version, count) = read_heading(disk, size)?;
    let plan = read_text(alloc, disk, count)?;
    let history = read_history(alloc, disk, size, version, &plan)?;
    Ok((version, plan, history))
}
