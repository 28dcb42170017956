// The bytes of a journal: its gates, its magic, its versions, and its limits.
ghost use Rattle.std.specs.Prelude.{◌≡◌, ◌≢◌, MatchOption};
ghost use Rattle.px_journal.specs.Layout.{digit};
ghost use Rattle.px_journal.specs.declared.version.Version.{Version as AnyVersion};

use crate::version::Version;

/// A gate is closed exactly where it is this byte.
pub(crate) const CLOSED: u8 = 0;

/// What this crate writes to open a gate. Any byte but `CLOSED` means open.
pub(crate) const OPEN: u8 = 1;

/// The bytes behind the master gate.
pub(crate) const MAGIC: [u8; 7] = *b"PLXJRNL";

/// The place of the plan's text, behind the master gate, the magic, the version, and the length in four bytes.
pub(crate) const TEXT_PLACE: u64 = 13;

/// The most bytes of a plan's text.
pub const TEXT_LIMIT: usize = 1_048_576;

/// The most records.
pub const RECORD_LIMIT: u32 = 100_000;

/// The byte of a version.
pub(crate) fn digit(version: Version) -> u8
    ensures { result ≡ digit version }
{
    match version {
        Version::One => b'1',
        Version::Two => b'2',
    }
}

/// The version whose byte this is.
pub(crate) fn version_of(byte: u8) -> Option<Version>
    ensures { MatchOption result ((version : AnyVersion) → byte ≢ digit version) (λ version. byte ≡ digit version) }
{
    match byte {
        b'1' => Some(Version::One),
        b'2' => Some(Version::Two),
        _ => None,
    }
}
