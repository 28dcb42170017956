// The two layouts of a journal.

/// The layout of a journal, which the byte behind its magic tells.
#[derive(Clone, Copy, Debug, Drop, PartialEq, Eq)]
pub enum Version {
    /// A record has an entry.
    One,
    /// A record has an entry with the name of its interface.
    Two,
}
