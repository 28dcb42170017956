// A new journal on a disk.
//
// All is written behind a closed master gate and synced before that gate is opened by a write of its own. So until then
// a crash leaves nothing, and then nothing or the whole.
ghost use Rattle.std.specs.Prelude.{◌≡◌, ◌≤◌, ◌++◌, [], ◌∷◌, ◌⊎◌, ℕ, List, length, IsTrue, IsFalse, IfOk, IsErr, OnOk, IsErrOf, vec_capacity};
ghost use Rattle.std.specs.Option.{ForSome};
ghost use Rattle.px_journal.specs.Crash.{OldOrNew, OldOrNewAs};
ghost use Rattle.px_journal.specs.Goes.{LeavesAtMost, Goes};
ghost use Rattle.px_journal.specs.Journal.{IsReady, IsReadyAs, IsSynced, IsUntouched, FailsBy, disk_after};
ghost use Rattle.px_journal.specs.Layout.{heading, is_closed, is_nothing, StandsAs};
ghost use Rattle.px_journal.specs.declared.fault.CreateWhy.TheVariants as whys;
ghost use Rattle.px_journal.specs.declared.version.Version.{Version as AnyVersion};

use crate::fault::{CreateFault, CreateWhy};
use crate::journal::{BUFFER_ROOM, Journal};
use crate::layout::{CLOSED, MAGIC, OPEN, TEXT_PLACE, digit};
use crate::put::put;
use crate::version::Version;
use byteorder::{BigEndian, ByteOrder};
use px_event::Names;
use px_ports::{Disk, DiskFault};
use px_value::NoMemory;
use std::alloc::Global;

impl<D: Disk> Journal<D> {
    /// Makes the journal of a plan's text, with the empty history, on an attached disk. A file of fewer than 13 bytes,
    /// or one whose first byte is 0, is overwritten. It is of the first version.
    ///
    /// `Exists` comes exactly where the file has at least 13 bytes and its first isn't 0, `DiskFault` just where a call
    /// of the disk failed, and `NoMemory` before the first call.
    pub fn create(alloc: Global, disk: D, plan_text: &[u8]) -> Result<Journal<D>, CreateFault<D>>
        requires attached { IsTrue (D.is_attached disk) }
        requires short { length plan_text.now ≤ 1048576 }

        ensures made { IfOk result (λ journal. IsReady D.Disk journal plan_text.now []) }
        ensures version { IfOk result (λ journal. journal.version ≡ Version.One) }
        ensures only_nothing { OnOk result (ForSome (D.content disk) (λ told. IsTrue (is_nothing told))) }

        ensures exists { FailsBy result whys.Exists → ForSome (D.content disk) (λ told. IsFalse (is_nothing told)) }
        ensures untouched { ForSome (D.content disk) (λ told. IsFalse (is_nothing told)
            → IsUntouched D.Disk disk (disk_after result)) }
        ensures no_memory { FailsBy result whys.NoMemory → disk_after result ≡ disk }

        ensures old_or_new { LeavesAtMost D.Disk (OldOrNew (D.images (D.moments disk)) plan_text.now)
            disk (disk_after result) }
        ensures old_or_new_as { LeavesAtMost D.Disk
            (OldOrNewAs Version.One (D.images (D.moments disk)) plan_text.now) disk (disk_after result) }
        ensures goes { Goes D.Disk (FailsBy result whys.DiskFault) disk (disk_after result) }
    {
        Journal::create_as(alloc, disk, plan_text, Version::One, Names::new(alloc))
    }

    /// As `create`, but of the second version: each entry is kept with the name that its thread then has.
    pub fn create_named(
        alloc: Global,
        disk: D,
        plan_text: &[u8],
        names: Names,
    ) -> Result<Journal<D>, CreateFault<D>>
        requires attached { IsTrue (D.is_attached disk) }
        requires short { length plan_text.now ≤ 1048576 }

        ensures made { IfOk result (λ journal. IsReady D.Disk journal plan_text.now []) }
        ensures version { IfOk result (λ journal. journal.version ≡ Version.Two) }
        ensures names { IfOk result (λ journal. journal.names ≡ names) }
        ensures only_nothing { OnOk result (ForSome (D.content disk) (λ told. IsTrue (is_nothing told))) }

        ensures exists { FailsBy result whys.Exists → ForSome (D.content disk) (λ told. IsFalse (is_nothing told)) }
        ensures untouched { ForSome (D.content disk) (λ told. IsFalse (is_nothing told)
            → IsUntouched D.Disk disk (disk_after result)) }
        ensures no_memory { FailsBy result whys.NoMemory → disk_after result ≡ disk }

        ensures old_or_new { LeavesAtMost D.Disk (OldOrNew (D.images (D.moments disk)) plan_text.now)
            disk (disk_after result) }
        ensures old_or_new_as { LeavesAtMost D.Disk
            (OldOrNewAs Version.Two (D.images (D.moments disk)) plan_text.now) disk (disk_after result) }
        ensures goes { Goes D.Disk (FailsBy result whys.DiskFault) disk (disk_after result) }
    {
        Journal::create_as(alloc, disk, plan_text, Version::Two, names)
    }

    fn create_as(
        alloc: Global,
        disk: D,
        plan_text: &[u8],
        version: Version,
        names: Names,
    ) -> Result<Journal<D>, CreateFault<D>>
        requires attached { IsTrue (D.is_attached disk) }
        requires short { length plan_text.now ≤ 1048576 }

        ensures made { IfOk result (λ journal. IsReadyAs D.Disk journal plan_text.now []) }
        ensures version { IfOk result (λ journal. journal.version ≡ version) }
        ensures names { IfOk result (λ journal. journal.names ≡ names) }
        ensures only_nothing { OnOk result (ForSome (D.content disk) (λ told. IsTrue (is_nothing told))) }

        ensures exists { FailsBy result whys.Exists → ForSome (D.content disk) (λ told. IsFalse (is_nothing told)) }
        ensures untouched { ForSome (D.content disk) (λ told. IsFalse (is_nothing told)
            → IsUntouched D.Disk disk (disk_after result)) }
        ensures no_memory { FailsBy result whys.NoMemory → disk_after result ≡ disk }

        ensures old_or_new { LeavesAtMost D.Disk (OldOrNewAs version (D.images (D.moments disk)) plan_text.now)
            disk (disk_after result) }
        ensures goes { Goes D.Disk (FailsBy result whys.DiskFault) disk (disk_after result) }
    {
        let mut disk = disk;
        match write_new(alloc, &mut disk, plan_text, version) {
            Ok(buffer) => Ok(Journal {
                disk,
                version,
                names,
                gate: TEXT_PLACE + plan_text.len() as u64,
                count: 0,
                buffer,
            }),
            Err(why) => Err(CreateFault { disk, why }),
        }
    }
}

/// Writes the journal of a text to the disk, and gives the buffer for its records.
fn write_new<D: Disk>(
    alloc: Global,
    disk: &mut D,
    plan_text: &[u8],
    version: Version,
) -> Result<Vec<u8>, CreateWhy>
    requires attached { IsTrue (D.is_attached disk.old) }
    requires short { length plan_text.now ≤ 1048576 }

    ensures room { IfOk result (λ buffer. 9385 ≤ vec_capacity buffer) }
    ensures synced { OnOk result (IsSynced D.Disk disk.new) }
    ensures stands { OnOk result (ForSome (D.content disk.new) (λ told. StandsAs version told plan_text.now [])) }
    ensures only_nothing { OnOk result (ForSome (D.content disk.old) (λ told. IsTrue (is_nothing told))) }

    ensures exists { IsErrOf result whys.Exists → ForSome (D.content disk.old) (λ told. IsFalse (is_nothing told)) }
    ensures untouched { ForSome (D.content disk.old) (λ told. IsFalse (is_nothing told)
        → IsUntouched D.Disk disk.old disk.new) }
    ensures no_memory { IsErrOf result whys.NoMemory → disk.new ≡ disk.old }

    ensures old_or_new { LeavesAtMost D.Disk (OldOrNewAs version (D.images (D.moments disk.old)) plan_text.now)
        disk.old disk.new }
    ensures goes { Goes D.Disk (IsErrOf result whys.DiskFault) disk.old disk.new }
{
    let buffer = Vec::with_capacity(alloc, BUFFER_ROOM)?;
    let content = behind_master_gate(alloc, plan_text, version)?;
    close_master_gate(disk)?;
    open_behind(disk, &content)?;
    Ok(buffer)
}

/// What goes behind the master gate: the magic, the version, the length, the text, and the closed gate of the first
/// record.
fn behind_master_gate(
    alloc: Global,
    plan_text: &[u8],
    version: Version,
) -> Result<Vec<u8>, NoMemory>
    requires { length plan_text.now ≤ 1048576 }
    ensures { IfOk result (λ bytes. bytes.items ≡ heading version plan_text.now ++ 0 ∷ []) }
{
    let mut length = [0; 4];
    BigEndian::write_u32(&mut length, plan_text.len() as u32);
    let mut bytes = Vec::with_capacity(alloc, TEXT_PLACE as usize + plan_text.len())?;
    bytes.extend_from_slice(&MAGIC)?;
    bytes.push(digit(version))?;
    bytes.extend_from_slice(&length)?;
    bytes.extend_from_slice(plan_text)?;
    bytes.push(CLOSED)?;
    Ok(bytes)
}

/// Makes sure that the disk's bytes are nothing, by a closed master gate, and synced.
fn close_master_gate<D: Disk>(disk: &mut D) -> Result<(), CreateWhy>
    requires { IsTrue (D.is_attached disk.old) }

    ensures synced { OnOk result (IsSynced D.Disk disk.new) }
    ensures nothing { OnOk result (ForSome (D.content disk.new) (λ told. IsTrue (is_closed told))) }
    ensures only_nothing { OnOk result (ForSome (D.content disk.old) (λ told. IsTrue (is_nothing told))) }

    ensures exists { IsErrOf result whys.Exists → ForSome (D.content disk.old) (λ told. IsFalse (is_nothing told)) }
    ensures untouched { ForSome (D.content disk.old) (λ told. IsFalse (is_nothing told)
        → IsUntouched D.Disk disk.old disk.new) }
    ensures memory { IsErrOf result whys.NoMemory → ⊥ }

    ensures old_or_nothing { LeavesAtMost D.Disk
        (λ image. D.images (D.moments disk.old) image ⊎ IsTrue (is_nothing image)) disk.old disk.new }
    ensures goes { Goes D.Disk (IsErrOf result whys.DiskFault) disk.old disk.new }
{
    if disk.len()? < TEXT_PLACE {
        put(disk, 0, &[CLOSED])?;
        return Ok(());
    }
    let mut gate = [CLOSED];
    disk.read_at(0, &mut gate)?;
    if gate[0] != CLOSED {
        return Err(CreateWhy::Exists);
    }
    disk.sync()?;
    Ok(())
}

/// Writes what goes behind the closed master gate, and then opens that gate.
fn open_behind<D: Disk>(disk: &mut D, content: &[u8]) -> Result<(), DiskFault>
    requires attached { IsTrue (D.is_attached disk.old) }
    requires synced { IsSynced D.Disk disk.old }
    requires closed { ForSome (D.content disk.old) (λ told. IsTrue (is_closed told)) }

    ensures synced { OnOk result (IsSynced D.Disk disk.new) }
    ensures stands { (version : AnyVersion) (text : List ℕ) → length text ≤ 1048576
        → content.now ≡ heading version text ++ 0 ∷ []
        → OnOk result (ForSome (D.content disk.new) (λ told. StandsAs version told text [])) }
    ensures nothing_or_new { (version : AnyVersion) (text : List ℕ) → length text ≤ 1048576
        → content.now ≡ heading version text ++ 0 ∷ [] → LeavesAtMost D.Disk
        (λ image. IsTrue (is_nothing image) ⊎ StandsAs version image text []) disk.old disk.new }
    ensures goes { Goes D.Disk (IsErr result) disk.old disk.new }
{
    put(disk, 1, content)?;
    put(disk, 0, &[OPEN])
}
