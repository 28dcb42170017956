// What an append that failed leaves, and that it closes the executive.
ghost use Rattle.std.specs.Prelude.{◌≡◌, Some};
ghost use Rattle.std.specs.Option.{option_map};

use crate::copies::Copies;
use px_event::Entry;

/// The entry whose append failed, and the disk's count of faults at that moment.
#[derive(Drop)]
pub(crate) struct Failed {
    pub(crate) entry: Entry,
    pub(crate) faults: u64,
}

/// Keeps the entry whose append failed, and the disk's count of faults.
pub(crate) fn close(failed: &mut Option<Failed>, copies: Copies, faults: u64)
    ensures { failed.new ≡ Some (record { entry = copies.for_history; faults = faults }) }
{
    *failed = Some(Failed {
        entry: copies.for_history,
        faults,
    });
}

/// The count of faults with which an append failed, where one did.
pub(crate) fn closed_after(failed: &Option<Failed>) -> Option<u64>
    ensures { result ≡ option_map (λ failed. failed.faults) failed.now }
{
    match failed {
        Some(failed) => Some(failed.faults),
        None => None,
    }
}
