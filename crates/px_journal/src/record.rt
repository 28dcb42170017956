// One record, read from the bytes of a file from its gate on.
ghost use Rattle.std.specs.Prelude.{◌≡◌, ◌≤◌, ◌<◌, ◌+◌, ◌⊎◌, ◌∷◌, ℕ, min, length, take, drop, IsTrue, IsFalse, IfOk, IfSome, IfNone, IsErrOf, OnOk};
ghost use Rattle.std.specs.Option.{ForSome};
ghost use Rattle.px_journal.specs.Damage.{body_length, body, IsBroken, IsNoBody};
ghost use Rattle.px_journal.specs.Goes.{Reads};
ghost use Rattle.px_journal.specs.Layout.{body_bytes, is_closed, is_fit, is_open, record_bytes, Opens};
ghost use Rattle.px_journal.specs.Window.{Shows};
ghost use Rattle.px_journal.specs.declared.fault.RecoverWhy.TheVariants as whys;
ghost use Rattle.px_journal.specs.declared.record.RecordFault.TheVariants as faults;

use crate::fault::RecoverWhy;
use crate::layout::CLOSED;
use crate::version::Version;
use crate::window::Window;
use byteorder::{BigEndian, ByteOrder};
use px_event::{DecodeFault, NAMED_LIMIT, NamedEntry, decode, decode_named};
use px_ports::Disk;
use std::alloc::Global;

/// As many bytes as a record can have with its gate and the next one.
pub(crate) const RECORD_SPAN: u64 = 9386;

/// Why a record was not read.
#[derive(Clone, Copy, Debug, Drop, PartialEq, Eq)]
pub(crate) enum RecordFault {
    /// Its length or the next gate lies past the end of the file.
    Cut,
    /// Its body is no entry, or in the second version no entry with a name or without one.
    NoEntry,
    NoMemory,
}

/// The entry of the record whose gate stands at the front, and how many bytes it has with the gate. The file has `left`
/// bytes from there on, and `front` has them all or as many as a record can have.
pub(crate) fn read_record(
    alloc: Global,
    version: Version,
    front: &[u8],
    left: u64,
) -> Result<(NamedEntry, u64), RecordFault>
    requires reaches { min left 9386 ≤ length front.now }
    requires within { length front.now ≤ left }

    ensures fit { IfOk result (λ found. IsTrue (is_fit version found.0)) }
    ensures content { IfOk result (λ found. take (length (record_bytes version found.0)) (drop 1 front.now)
        ≡ record_bytes version found.0) }
    ensures size { IfOk result (λ found. (found.1 ≡ 1 + length (record_bytes version found.0)) × (found.1 < left)) }

    ensures cut { IsErrOf result faults.Cut
        → (left < 3) ⊎ ((3 ≤ length front.now) × (left ≤ 3 + body_length front.now)) }
    ensures no_entry { IsErrOf result faults.NoEntry
        → (3 + body_length front.now < left) × (3 ≤ length front.now) × ((9382 < body_length front.now)
        ⊎ ((3 + body_length front.now ≤ length front.now) × IsNoBody version (body front.now))) }
{
    if left < 3 {
        return Err(RecordFault::Cut);
    }
    let size = u64::from(BigEndian::read_u16(&front[1..])) + 3;
    if left <= size {
        return Err(RecordFault::Cut);
    }
    if size > NAMED_LIMIT as u64 + 3 {
        return Err(RecordFault::NoEntry);
    }
    match decode_body(alloc, version, &front[3..size as usize]) {
        Ok(named) => Ok((named, size)),
        Err(DecodeFault::Bad) => Err(RecordFault::NoEntry),
        Err(DecodeFault::NoMemory) => Err(RecordFault::NoMemory),
    }
}

/// The entry whose body this is, in the second version with its name.
fn decode_body(alloc: Global, version: Version, body: &[u8]) -> Result<NamedEntry, DecodeFault>
    ensures named { IfOk result (λ named. IsTrue (is_fit version named) × (body.now ≡ body_bytes version named)) }
    ensures bad { IsErrOf result DecodeFault.Bad → IsNoBody version body.now }
{
    match version {
        Version::One => Ok(NamedEntry {
            name: None,
            entry: decode(alloc, body)?,
        }),
        Version::Two => decode_named(alloc, body),
    }
}

/// What stands at a gate of a file of `size` bytes: none at a closed one, and else a record's entry, with the place of
/// the gate behind it. Where the history is full, a record is damage.
pub(crate) fn next_record<D: Disk>(
    alloc: Global,
    disk: &mut D,
    version: Version,
    gate: u64,
    size: u64,
    is_full: bool,
    window: &mut Window,
) -> Result<Option<(NamedEntry, u64)>, RecoverWhy>
    requires attached { IsTrue (D.is_attached disk.old) }
    requires inside { window.old.place + length window.old.bytes ≤ size }
    requires shows { ForSome (D.content disk.old) (Shows window.old) }
    requires within { gate < size }
    requires size { ForSome (D.content disk.old) (λ told. size ≡ length told) }

    ensures found { IfOk result (λ next. IfSome next (λ found. IsTrue (is_fit version found.0)
        × IsFalse is_full × (found.1 ≡ gate + 1 + length (record_bytes version found.0)) × (found.1 < size))) }
    ensures opens { IfOk result (λ next. IfSome next (λ found. ForSome (D.content disk.old)
        (λ told. Opens (record_bytes version found.0) (drop gate told)))) }
    ensures closed { IfOk result (λ next. IfNone next (ForSome (D.content disk.old)
        (λ told. IsTrue (is_closed (drop gate told))))) }

    ensures inside { OnOk result (window.new.place + length window.new.bytes ≤ size) }
    ensures shows { OnOk result (ForSome (D.content disk.old) (Shows window.new)) }

    ensures no_journal { IsErrOf result whys.NoJournal → ⊥ }
    ensures damaged { (at : ℕ) → IsErrOf result (whys.Damaged at) → ForSome (D.content disk.old)
        (λ told. IsTrue (is_open (drop gate told))
        × (((at ≡ gate) × IsTrue is_full) ⊎ (IsFalse is_full × IsBroken version told gate at))) }

    ensures reads { Reads D.Disk (IsErrOf result whys.DiskFault) disk.old disk.new }
{
    window.reach(disk, gate, size)?;
    let front = window.from(gate);
    if front[0] == CLOSED {
        return Ok(None);
    }
    if is_full {
        return Err(RecoverWhy::Damaged { at: gate });
    }
    match read_record(alloc, version, front, size - gate) {
        Ok((named, bytes)) => Ok(Some((named, gate + bytes))),
        Err(RecordFault::Cut) => Err(RecoverWhy::Damaged { at: gate + 1 }),
        Err(RecordFault::NoEntry) => Err(RecoverWhy::Damaged { at: gate + 3 }),
        Err(RecordFault::NoMemory) => Err(RecoverWhy::NoMemory),
    }
}
