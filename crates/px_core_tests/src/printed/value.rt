// Values as they are spelled in a plan.
use itoa::Buffer;
use px_value::{NoMemory, Value};

/// Some texts, one behind the other.
pub(super) fn push_all(texts: &[&str], out: &mut String) -> Result<(), NoMemory> {
    for text in texts {
        out.push_str(text)?;
    }
    Ok(())
}

/// A value; a negative integer with a minus.
pub(super) fn push_value(value: &Value, out: &mut String) -> Result<(), NoMemory> {
    match value {
        Value::Unknown => out.push_str("UNKNOWN"),
        Value::Boolean(true) => out.push_str("true"),
        Value::Boolean(false) => out.push_str("false"),
        Value::Integer(number) => out.push_str(Buffer::new().format(*number)),
        Value::Text(text) => push_quoted(text.as_str(), out),
        Value::State(state) => out.push_str(state.word()),
        Value::Outcome(outcome) => out.push_str(outcome.word()),
        Value::Failure(failure) => out.push_str(failure.word()),
        Value::Handle(handle) => out.push_str(handle.word()),
    }
}

fn push_quoted(text: &str, out: &mut String) -> Result<(), NoMemory> {
    out.push_str("\"")?;
    for c in text.chars() {
        match c {
            '"' => out.push_str("\\\"")?,
            '\\' => out.push_str("\\\\")?,
            '\n' => out.push_str("\\n")?,
            '\t' => out.push_str("\\t")?,
            _ => out.push(c)?,
        }
    }
    out.push_str("\"")
}
