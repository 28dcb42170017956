// Texts that are too long for rows, made of parts.
use anyhow::bail;
use std::alloc::Global;

/// The text of such parts. Each is a line with how often it stands there, a blank and the part; in the place of each `#` of
/// it stands how often it stood before.
pub(crate) fn text_of(alloc: Global, parts: &str) -> anyhow::Result<String> {
    let mut text = String::new(alloc);
    for line in parts.lines() {
        let Some((count, part)) = line.split_once(' ') else {
            bail!("no part: {line}");
        };
        let count: usize = count.parse()?;
        for number in 0..count {
            push_numbered(alloc, part, number, &mut text)?;
        }
    }
    Ok(text)
}

// A part with a number in the place of each `#`.
fn push_numbered(alloc: Global, part: &str, number: usize, out: &mut String) -> anyhow::Result<()> {
    for (place, piece) in part.split('#').enumerate() {
        if 0 < place {
            out.push_str(format!(in alloc; "{number}")?.as_str())?;
        }
        out.push_str(piece)?;
    }
    Ok(())
}
