// A row, and how it is spelled.

/// What a row has a plan of: its text, or the parts of which it is made.
#[derive(Clone, Copy)]
pub(crate) enum Source<'a> {
    Text(&'a str),
    Parts(&'a str),
}

/// A row: its name, a plan, and the core plan that it has to have, or for one that is made what has to be answered.
#[derive(Clone, Copy)]
pub(crate) struct Row<'a> {
    pub(crate) name: &'a str,
    pub(crate) plan: Source<'a>,
    pub(crate) wanted: &'a str,
}

impl<'a> Row<'a> {
    /// The row that is spelled so; None where a mark is missing.
    pub(crate) fn spelled_by(spelled: &'a str) -> Option<Row<'a>> {
        if let Some((name, rest)) = spelled.split_once("\n---- parts\n") {
            let (parts, wanted) = rest.split_once("\n---- answers\n")?;
            return Some(Row {
                name,
                plan: Source::Parts(parts),
                wanted,
            });
        }
        let (name, rest) = spelled.split_once("\n---- plan\n")?;
        let (text, wanted) = rest.split_once("\n---- core\n")?;
        Some(Row {
            name,
            plan: Source::Text(text),
            wanted,
        })
    }
}
