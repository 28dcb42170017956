// A row, and how it is spelled.

/// A plan's text and a script's.
#[derive(Clone, Copy)]
pub(crate) struct Row<'a> {
    pub(crate) plan: &'a str,
    pub(crate) script: &'a str,
}

impl<'a> Row<'a> {
    /// The row that is spelled so; None where the mark is missing.
    pub(crate) fn spelled_by(spelled: &'a str) -> Option<Row<'a>> {
        let (plan, script) = spelled.split_once("\n----\n")?;
        Some(Row { plan, script })
    }
}
