// The bytes of values: a tag, and what it says.
ghost use Rattle.std.specs.Prelude.{◌≡◌, ◌<◌, ◌^◌, ◌∷◌, Some, None, length, if◌then◌else◌};
ghost use Rattle.px_event.specs.Appending.{Appends};
ghost use Rattle.std.specs.List.{flat_map};
ghost use Rattle.px_value.specs.Text.{is_short_text};
ghost use Rattle.px_event.specs.Bytes.{value_bytes};
ghost use Rattle.px_event.specs.Reading.{Gives, Reads, value_at, argument_at, arguments_at};

use crate::bytes::fields::{Reader, push_byte, push_tagged, push_u32};
use crate::fault::DecodeFault;
use px_value::{NoMemory, Text, TextFault, Value};
use std::alloc::Global;

const UNKNOWN: u8 = 0;

const FALSE: u8 = 1;

const TRUE: u8 = 2;

const INTEGER: u8 = 3;

const TEXT: u8 = 4;

/// Appends the bytes of a value. What is never told, as a state, has none.
pub fn push_value(out: &mut Vec<u8>, value: &Value) -> Result<(), NoMemory>
    ensures { Appends (value_bytes value.now) out.old out.new result }
{
    match value {
        Value::Unknown => push_byte(out, UNKNOWN),
        Value::Boolean(false) => push_byte(out, FALSE),
        Value::Boolean(true) => push_byte(out, TRUE),
        Value::Integer(number) => {
            push_byte(out, INTEGER)?;
            push_u32(out, number.cast_unsigned())
        }
        Value::Text(text) => push_tagged(out, TEXT, text.as_str()),
        Value::State(_) | Value::Outcome(_) | Value::Failure(_) | Value::Handle(_) => Ok(()),
    }
}

/// Appends how many values there are, and the bytes of each.
pub fn push_arguments(out: &mut Vec<u8>, values: &[Value]) -> Result<(), NoMemory>
    requires { length values.now < 2 ^ 8 }
    ensures { Appends (length values.now ∷ flat_map value_bytes values.now) out.old out.new result }
{
    out.push(values.len() as u8)?;
    push_values(out, values)
}

// Appends the bytes of values, one after another.
fn push_values(out: &mut Vec<u8>, values: &[Value]) -> Result<(), NoMemory>
    ensures { Appends (flat_map value_bytes values.now) out.old out.new result }
{
    for value in values {
        push_value(out, value)?;
    }
    Ok(())
}

/// The next value: UNKNOWN, a Boolean, an Integer, or a Text of at most 1,024 bytes.
#[tactic(auto, unfolding(crate::specs::Reading::value_at, crate::specs::Reading::value_behind))]
pub fn value_of(alloc: Global, reader: &mut Reader<'_>) -> Result<Value, DecodeFault>
    ensures { Reads (λ value. value) (value_at reader.old) result reader.new }
{
    match reader.byte()? {
        UNKNOWN => Ok(Value::Unknown),
        FALSE => Ok(Value::Boolean(false)),
        TRUE => Ok(Value::Boolean(true)),
        INTEGER => Ok(Value::Integer(reader.u32()?.cast_signed())),
        TEXT => Ok(Value::Text(short_text(alloc, reader.text()?)?)),
        _ => Err(DecodeFault::Bad),
    }
}

fn short_text(alloc: Global, text: &str) -> Result<Text, DecodeFault>
    ensures { Gives (λ short. short) (if is_short_text text.now then Some text.now else None) result }
{
    match Text::new(alloc, text) {
        Ok(text) => Ok(text),
        Err(TextFault::TooLong) => Err(DecodeFault::Bad),
        Err(TextFault::NoMemory) => Err(DecodeFault::NoMemory),
    }
}

/// The next value, if it isn't UNKNOWN.
#[tactic(auto, unfolding(crate::specs::Reading::argument_at))]
fn argument_of(alloc: Global, reader: &mut Reader<'_>) -> Result<Value, DecodeFault>
    ensures { Reads (λ value. value) (argument_at reader.old) result reader.new }
{
    let value = value_of(alloc, reader)?;
    if !value.is_known() {
        return Err(DecodeFault::Bad);
    }
    Ok(value)
}

/// The next `count` values, of which none is UNKNOWN.
pub fn arguments_of(
    alloc: Global,
    count: u8,
    reader: &mut Reader<'_>,
) -> Result<Vec<Value>, DecodeFault>
    ensures { Reads (λ values. values.items) (arguments_at count reader.old) result reader.new }
{
    let mut values = Vec::new(alloc);
    for _ in 0..count {
        let argument = argument_of(alloc, reader)?;
        values.push(argument)?;
    }
    Ok(values)
}
