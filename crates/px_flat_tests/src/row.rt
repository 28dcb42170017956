// A row, and how it is spelled.

/// A row: its name, a plan, and calls on its claims, with what goes where it is asked for.
#[derive(Clone, Copy)]
pub(crate) struct Row<'a> {
    pub(crate) name: &'a str,
    pub(crate) plan: &'a str,
    pub(crate) calls: &'a str,
}

impl<'a> Row<'a> {
    /// The row that is spelled so; None where a mark is missing.
    pub(crate) fn spelled_by(spelled: &'a str) -> Option<Row<'a>> {
        let (name, rest) = spelled.split_once("\n---- plan\n")?;
        let (plan, calls) = rest.split_once("\n---- claims\n")?;
        Some(Row { name, plan, calls })
    }
}
