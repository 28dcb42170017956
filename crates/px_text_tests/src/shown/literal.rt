// Words with the numbers of their tokens.
use itoa::Buffer;
use px_syntax::{Identifier, Literal};
use px_value::NoMemory;

/// Some texts, one behind the other.
pub(super) fn push_all(texts: &[&str], out: &mut String) -> Result<(), NoMemory> {
    for text in texts {
        out.push_str(text)?;
    }
    Ok(())
}

/// A word and the number of its token, and what stands before and behind both.
pub(super) fn push_word(
    front: &str,
    word: &str,
    token: usize,
    end: &str,
    out: &mut String,
) -> Result<(), NoMemory> {
    out.push_str(front)?;
    out.push_str(word)?;
    push_all(&["@", Buffer::new().format(token)], out)?;
    out.push_str(end)
}

/// The same of a name.
pub(super) fn push_name(
    front: &str,
    name: &Identifier,
    end: &str,
    out: &mut String,
) -> Result<(), NoMemory> {
    push_word(front, name.name.as_str(), name.token, end, out)
}

/// The same of a literal; the content of a string as it is, in quotes.
pub(super) fn push_literal(
    front: &str,
    value: &Literal,
    token: usize,
    out: &mut String,
) -> Result<(), NoMemory> {
    match value {
        Literal::Integer(number) => {
            push_word(front, Buffer::new().format(*number), token, "", out)
        }
        Literal::Boolean(true) => push_word(front, "true", token, "", out),
        Literal::Boolean(false) => push_word(front, "false", token, "", out),
        Literal::Text(text) => {
            out.push_str(front)?;
            push_all(&["\"", text.as_str()], out)?;
            push_word("", "\"", token, "", out)
        }
    }
}
