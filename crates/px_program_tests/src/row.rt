// A row, how it is spelled, and what it allows.
use crate::bytes::bytes_of;
use crate::faults::Faults;
use crate::running::Answer;
use std::alloc::Global;

/// A row: its name, the words of the call, the content of the two files and of the disk, and what the call has to come to.
#[derive(Clone, Copy)]
pub(crate) struct Row<'a> {
    pub(crate) name: &'a str,
    pub(crate) words: &'a str,
    pub(crate) plan: &'a str,
    pub(crate) script: &'a str,
    pub(crate) faults: Faults,
    /// The bytes of the disk before the call, in hexadecimal.
    pub(crate) journal: &'a str,
    status: &'a str,
    /// Without its last line feed.
    text: &'a str,
    /// The picked image of the disk after the call, in hexadecimal.
    leaves: &'a str,
}

impl<'a> Row<'a> {
    /// The row that is spelled so; None where a mark is missing, or the faults are none.
    pub(crate) fn spelled_by(spelled: &'a str) -> Option<Row<'a>> {
        let (name, rest) = spelled.split_once('\n')?;
        let (words, rest) = rest.split_once("\n---- plan\n")?;
        let (plan, rest) = rest.split_once("\n---- script\n")?;
        let (found, left) = rest.split_once("\n---- answers ")?;
        let (found, journal) = found.split_once("\n---- journal").unwrap_or((found, ""));
        let (script, faults) = found.split_once("\n---- faults ").unwrap_or((found, ""));
        let (answer, leaves) = left.split_once("\n---- leaves").unwrap_or((left, journal));
        let (status, text) = answer.split_once('\n').unwrap_or((answer, ""));
        Some(Row {
            name,
            words,
            plan,
            script,
            faults: Faults::spelled_by(faults)?,
            journal,
            status,
            text,
            leaves,
        })
    }

    /// Whether an answer is the one that the row has.
    pub(crate) fn allows(&self, alloc: Global, answer: &Answer) -> anyhow::Result<bool> {
        let is_told = self.status.parse().ok() == Some(answer.status)
            && is_spelled(answer.text.as_str(), self.text);
        Ok(is_told && is_left(alloc, &answer.left, self.leaves)?)
    }
}

// Whether a text is spelled so, without its last line feed. Behind a line of dots stands how it ends, and before one how
// it begins.
fn is_spelled(text: &str, spelled: &str) -> bool {
    let Some(told) = text.strip_suffix('\n') else {
        return text.is_empty() && spelled.is_empty();
    };
    if let Some(end) = spelled.strip_prefix("..\n") {
        return told.ends_with(end);
    }
    match spelled.strip_suffix("\n..") {
        Some(front) => told.starts_with(front),
        None => told == spelled,
    }
}

// Whether bytes are spelled so, in hexadecimal. Behind dots stands how they end.
fn is_left(alloc: Global, bytes: &[u8], spelled: &str) -> anyhow::Result<bool> {
    match spelled.trim_start().strip_prefix("..") {
        Some(end) => Ok(bytes.ends_with(&bytes_of(alloc, end)?)),
        None => Ok(bytes == bytes_of(alloc, spelled)?.as_slice()),
    }
}
