// A row, and how it is spelled.

/// What is read of a text: the expression from a token on, or the plan that all of it spells.
#[derive(Clone, Copy)]
pub(crate) enum Part {
    Expression { from: usize },
    Plan,
}

/// A row: its name, a text, what is read of it, and the tree that this has to have.
#[derive(Clone, Copy)]
pub(crate) struct Row<'a> {
    pub(crate) name: &'a str,
    pub(crate) part: Part,
    pub(crate) text: &'a str,
    pub(crate) tree: &'a str,
}

impl<'a> Row<'a> {
    /// The row that is spelled so; None where a mark is missing.
    pub(crate) fn spelled_by(spelled: &'a str) -> Option<Row<'a>> {
        let (name, rest) = spelled.split_once("\n---- ")?;
        let (part, rest) = rest.split_once('\n')?;
        let (text, tree) = rest.split_once("\n---- tree\n")?;
        Some(Row {
            name,
            part: Part::spelled_by(part)?,
            text,
            tree,
        })
    }
}

impl Part {
    // The part that is spelled so, where it is one.
    fn spelled_by(spelled: &str) -> Option<Part> {
        match spelled {
            "plan" => Some(Part::Plan),
            "expression" => Some(Part::Expression { from: 0 }),
            _ => {
                let (_, from) = spelled.split_once("expression from ")?;
                Some(Part::Expression {
                    from: from.parse().ok()?,
                })
            }
        }
    }
}
