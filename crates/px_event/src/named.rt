// An entry with the name of the interface that it came through.
use crate::entry::Entry;
use px_value::Name;

/// An entry, and the name that its thread had when it was kept, or none.
#[derive(Drop)]
pub struct NamedEntry {
    /// An identifier, where there is one.
    pub name: Option<Name>,
    pub entry: Entry,
}
