// Values as a plan spells them.
use px_pen::Pen;
use px_value::Value;

/// Writes a value.
pub fn push_value(value: &Value, pen: &mut Pen) {
    match value {
        Value::Unknown => pen.push("UNKNOWN"),
        Value::Boolean(truth) => pen.show(truth),
        Value::Integer(number) => pen.show(number),
        Value::Text(text) => push_text(text.as_str(), pen),
        Value::State(state) => pen.push(state.word()),
        Value::Outcome(outcome) => pen.push(outcome.word()),
        Value::Failure(failure) => pen.push(failure.word()),
        Value::Handle(handle) => pen.push(handle.word()),
    }
}

/// Writes values in parentheses.
pub fn push_values(values: &[Value], pen: &mut Pen) {
    pen.push("(");
    for (place, value) in values.iter().enumerate() {
        if place > 0 {
            pen.push(", ");
        }
        push_value(value, pen);
    }
    pen.push(")");
}

fn push_text(text: &str, pen: &mut Pen) {
    pen.push("\"");
    for c in text.chars() {
        match escaped(c) {
            Some(escaped) => pen.push(escaped),
            None => pen.push_char(c),
        }
    }
    pen.push("\"");
}

// What stands for a character; None where it stands for itself.
fn escaped(c: char) -> Option<&'static str> {
    match c {
        '"' => Some("\\\""),
        '\\' => Some("\\\\"),
        '\n' => Some("\\n"),
        '\t' => Some("\\t"),
        _ => None,
    }
}
