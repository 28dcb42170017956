// What stands before the first record: the master gate, the magic, the version, and the plan's text behind its length.
ghost use Rattle.std.specs.Prelude.{◌≡◌, ◌≢◌, ◌≤◌, ◌<◌, ◌+◌, ℕ, length, take, drop, slice_index, slice_range, IsTrue, IfOk, IsErrOf, MatchOption};
ghost use Rattle.std.specs.Option.{ForSome};
ghost use Rattle.byteorder.specs.Endian.{big_bytes, big_number};
ghost use Rattle.px_journal.specs.Damage.{Damaged};
ghost use Rattle.px_journal.specs.Goes.{Reads};
ghost use Rattle.px_journal.specs.Layout.{is_closed, is_open, magic, HasVersion};
ghost use Rattle.px_journal.specs.declared.fault.RecoverWhy.TheVariants as whys;

use crate::fault::RecoverWhy;
use crate::layout::{CLOSED, MAGIC, TEXT_LIMIT, TEXT_PLACE, version_of};
use crate::version::Version;
use byteorder::{BigEndian, ByteOrder};
use px_ports::Disk;
use std::alloc::Global;

/// The version, and the length of the plan's text, of a file of `size` bytes that is an open journal.
pub(crate) fn read_heading<D: Disk>(disk: &mut D, size: u64) -> Result<(Version, u32), RecoverWhy>
    requires attached { IsTrue (D.is_attached disk.old) }
    requires least { 13 ≤ size }
    requires size { ForSome (D.content disk.old) (λ told. size ≡ length told) }

    ensures fits { IfOk result (λ read. (read.1 ≤ 1048576) × (13 + read.1 < size)) }
    ensures opens { IfOk result (λ read. ForSome (D.content disk.old) (λ told. IsTrue (is_open told)
        × HasVersion read.0 told × (take 4 (drop 9 told) ≡ big_bytes 4 read.1))) }

    ensures no_journal { IsErrOf result whys.NoJournal
        → ForSome (D.content disk.old) (λ told. IsTrue (is_closed told)) }
    ensures damaged { (at : ℕ) → IsErrOf result (whys.Damaged at)
        → ForSome (D.content disk.old) (λ told. IsTrue (is_open told) × Damaged told at) }

    ensures reads { Reads D.Disk (IsErrOf result whys.DiskFault) disk.old disk.new }
{
    let mut heading = [0; 13];
    disk.read_at(0, &mut heading)?;
    if heading[0] == CLOSED {
        return Err(RecoverWhy::NoJournal);
    }
    if let Some(place) = first_difference(&heading[1..8]) {
        return Err(RecoverWhy::Damaged {
            at: 1 + place as u64,
        });
    }
    let Some(version) = version_of(heading[8]) else {
        return Err(RecoverWhy::Damaged { at: 8 });
    };
    let length = told_length(&heading);
    if length as usize > TEXT_LIMIT || size <= TEXT_PLACE + u64::from(length) {
        return Err(RecoverWhy::Damaged { at: 9 });
    }
    Ok((version, length))
}

/// The length of the text that the first 13 bytes tell.
fn told_length(heading: &[u8]) -> u32
    requires { length heading.now ≡ 13 }
    ensures number { result ≡ big_number 4 (drop 9 heading.now) }
    ensures bytes { take 4 (drop 9 heading.now) ≡ big_bytes 4 result }
{
    BigEndian::read_u32(&heading[9..])
}

/// The first place at which seven bytes differ from the magic.
fn first_difference(bytes: &[u8]) -> Option<usize>
    requires { length bytes.now ≡ 7 }
    ensures { MatchOption result (bytes.now ≡ magic) (λ i. (i < 7) × (take i bytes.now ≡ take i magic)
        × (slice_index bytes.now i ≢ slice_index magic i)) }
{
    for i in 0..MAGIC.len() {
        if bytes[i] != MAGIC[i] {
            return Some(i);
        }
    }
    None
}

/// The plan's text, of which the file has so many bytes.
pub(crate) fn read_text<D: Disk>(
    alloc: Global,
    disk: &mut D,
    count: u32,
) -> Result<Vec<u8>, RecoverWhy>
    requires attached { IsTrue (D.is_attached disk.old) }
    requires within { ForSome (D.content disk.old) (λ told. 13 + count ≤ length told) }

    ensures length { IfOk result (λ text. length text.items ≡ count) }
    ensures text { IfOk result (λ text. ForSome (D.content disk.old)
        (λ told. text.items ≡ slice_range told 13 (13 + count))) }
    ensures no_journal { IsErrOf result whys.NoJournal → ⊥ }
    ensures damaged { (at : ℕ) → IsErrOf result (whys.Damaged at) → ⊥ }

    ensures reads { Reads D.Disk (IsErrOf result whys.DiskFault) disk.old disk.new }
{
    let mut text = vec![in alloc; 0; count as usize]?;
    disk.read_at(TEXT_PLACE, &mut text)?;
    Ok(text)
}
