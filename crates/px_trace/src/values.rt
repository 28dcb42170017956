// The texts of values.
ghost use Rattle.std.specs.Prelude.{◌≡◌, ◌++◌, codes, OnOk, OnErr};
ghost use Rattle.std.specs.List.{join_by};
ghost use Rattle.px_sem.specs.Text.{value_text, arguments_text};
ghost use Rattle.px_trace.specs.Appending.{Keeps};

use crate::append::push_all;
use itoa::Buffer;
use px_value::{NoMemory, Value};

/// Appends a value as plans spell it, an UNKNOWN one as its word.
pub(crate) fn push_value(value: &Value, out: &mut Vec<u8>) -> Result<(), NoMemory>
    ensures ok { OnOk result (out.new.items ≡ out.old.items ++ value_text value.now) }
    ensures err { OnErr result (Keeps out.old.items out.new.items) }
{
    match value {
        Value::Unknown => push_all(out, &["UNKNOWN"]),
        Value::Boolean(true) => push_all(out, &["true"]),
        Value::Boolean(false) => push_all(out, &["false"]),
        Value::Integer(number) => push_all(out, &[Buffer::new().format(*number)]),
        Value::Text(text) => text.push_quoted(out),
        Value::State(state) => push_all(out, &[state.word()]),
        Value::Outcome(outcome) => push_all(out, &[outcome.word()]),
        Value::Failure(failure) => push_all(out, &[failure.word()]),
        Value::Handle(handle) => push_all(out, &[handle.word()]),
    }
}

/// Appends the values in parentheses, parted by commas.
pub(crate) fn push_arguments(args: &[Value], out: &mut Vec<u8>) -> Result<(), NoMemory>
    ensures ok { OnOk result (out.new.items ≡ out.old.items ++ arguments_text args.now) }
    ensures err { OnErr result (Keeps out.old.items out.new.items) }
{
    push_all(out, &["("])?;
    push_parted(args, out)?;
    push_all(out, &[")"])
}

fn push_parted(values: &[Value], out: &mut Vec<u8>) -> Result<(), NoMemory>
    ensures ok { OnOk result (out.new.items ≡ out.old.items ++ join_by value_text (codes ", ") values.now) }
    ensures err { OnErr result (Keeps out.old.items out.new.items) }
{
    let mut values = values.iter();
    if let Some(first) = values.next() {
        push_value(first, out)?;
        for value in values {
            push_all(out, &[", "])?;
            push_value(value, out)?;
        }
    }
    Ok(())
}
