// Which image of a disk in memory a test asks for.

/// Which of the images that a crash may leave.
#[derive(Clone, Copy, Debug, PartialEq, Eq)]
pub enum Pick {
    /// The bytes of the last sync.
    Stable,
    /// What a read gives.
    Reads,
    /// What a read gives, with each byte that was written since the last sync replaced by this one.
    Fill(u8),
}
