// Lines that report a looked-up state.
ghost use Rattle.std.specs.Prelude.{◌≡◌, map, Some, None, IfOk, if◌then◌else◌};
ghost use Rattle.std.specs.Option.{option_map, option_copied, option_and_then};
ghost use Rattle.px_event.specs.Fit.{is_report_name};
ghost use Rattle.px_script.specs.SetLine.{told_in, arguments_in, setting_with, setting_of, all_values, report, set_line};
ghost use Rattle.px_script.specs.Setting.{places_of, setting_data};
ghost use Rattle.px_script.specs.Value.{argument_of};

use crate::fault::FaultKind;
use crate::parsed_line::ParsedLine;
use crate::place::{behind_sign, split_place};
use crate::value::{argument_of, value_of};
use px_event::{ARGUMENT_LIMIT, Event, Values};
use px_value::{Name, NameFault, NoMemory, Value, is_identifier};
use std::alloc::{AllocError, Global};

/// What stands in the places of a set line.
#[derive(Drop)]
struct Setting<'a> {
    name: &'a str,
    args: Vec<&'a str>,
    value: &'a str,
}

/// What a set line says by the text behind its word; None exactly where that hasn't the shape. Where it reports what was
/// reported before, it shares that name's text.
pub(crate) fn set_line(
    alloc: Global,
    before: Option<&Name>,
    text: &str,
) -> Result<Option<ParsedLine>, NoMemory>
    ensures { IfOk result (λ says. says ≡ set_line text.now) }
{
    let Some(setting) = setting_of(alloc, text)? else {
        return Ok(None);
    };
    let Some(name) = report_name(alloc, before, setting.name)? else {
        return Ok(None);
    };
    let args = arguments_of(alloc, setting.args.as_slice())?;
    let value = value_of(alloc, setting.value)?;
    Ok(Some(report(name, args, value)))
}

/// The report of a name; where a VALUE is none, the line is at fault.
fn report(name: Name, args: Option<Values>, value: Option<Value>) -> ParsedLine
    ensures { result ≡ report name args value }
{
    match (args, value) {
        (Some(args), Some(value)) => ParsedLine::Posts(Event::Report { name, args, value }),
        _ => ParsedLine::Faulty(FaultKind::BadValue),
    }
}

/// The name that is reported; None exactly where the text is no identifier, or one of over 64 bytes. It is a copy of the name
/// before, where that is spelled so.
pub(crate) fn report_name(
    alloc: Global,
    before: Option<&Name>,
    text: &str,
) -> Result<Option<Name>, NoMemory>
    ensures { IfOk result (λ name. name ≡ (if is_report_name text.now then Some text.now else None)) }
{
    if !is_identifier(text.as_bytes()) {
        return Ok(None);
    }
    if let Some(name) = before {
        if name.as_str() == text {
            return Ok(Some(name.copy(alloc)?));
        }
    }
    match Name::new(alloc, text) {
        Ok(name) => Ok(Some(name)),
        Err(NameFault::NotAName) => Ok(None),
        Err(NameFault::NoMemory) => Err(AllocError),
    }
}

/// The values of arguments; None exactly where a VALUE spells none or is UNKNOWN.
fn arguments_of(alloc: Global, places: &[&str]) -> Result<Option<Values>, NoMemory>
    ensures { IfOk result (λ values. values ≡ all_values (map argument_of (places_of places.now))) }
{
    let mut values = Vec::with_capacity(alloc, places.len())?;
    for place in places {
        let Some(value) = argument_of(alloc, place)? else {
            return Ok(None);
        };
        values.push(value)?;
    }
    Ok(Some(values.into()))
}

/// The places of `NAME = VALUE` or `NAME(VALUE, ..) = VALUE`; None exactly where the text is neither.
fn setting_of<'a>(alloc: Global, text: &'a str) -> Result<Option<Setting<'a>>, NoMemory>
    ensures { IfOk result (λ setting. option_map setting_data setting ≡ setting_of text.now) }
{
    let (name, behind) = split_place(text);
    if let Some(arguments) = behind_sign(behind, '(') {
        return setting_with(alloc, name, arguments);
    }
    Ok(match told_in(behind) {
        Some(value) => Some(Setting {
            name,
            args: Vec::new(alloc),
            value,
        }),
        None => None,
    })
}

/// The places of a name and of `VALUE, ..) = VALUE`; None exactly where the text isn't that.
fn setting_with<'a>(
    alloc: Global,
    name: &'a str,
    text: &'a str,
) -> Result<Option<Setting<'a>>, NoMemory>
    ensures { IfOk result (λ setting. option_map setting_data setting
        ≡ option_and_then (setting_with name.now) (arguments_in 8 text.now)) }
{
    let Some((args, behind)) = arguments_in(alloc, text)? else {
        return Ok(None);
    };
    let (between, behind) = split_place(behind);
    if !between.is_empty() {
        return Ok(None);
    }
    Ok(match told_in(behind) {
        Some(value) => Some(Setting { name, args, value }),
        None => None,
    })
}

/// The places of 1 to 8 arguments, and what is behind their closing parenthesis; None exactly where no such arguments
/// stand at the front of the text.
fn arguments_in<'a>(
    alloc: Global,
    text: &'a str,
) -> Result<Option<(Vec<&'a str>, &'a str)>, NoMemory>
    ensures { IfOk result (λ read. option_map (λ r. (places_of r.0.items, r.1.now)) read ≡ arguments_in 8 text.now) }
{
    let mut args = Vec::new(alloc);
    let mut text = text;
    while args.len() < ARGUMENT_LIMIT {
        let (arg, behind) = split_place(text);
        args.push(arg)?;
        if let Some(behind) = behind_sign(behind, ')') {
            return Ok(Some((args, behind)));
        }
        let Some(more) = behind_sign(behind, ',') else {
            return Ok(None);
        };
        text = more;
    }
    Ok(None)
}

/// The place of the VALUE in `= VALUE`; None exactly where the text isn't that up to its end.
fn told_in(text: &str) -> Option<&str>
    ensures { option_copied result ≡ told_in text.now }
{
    let text = behind_sign(text, '=')?;
    let (value, behind) = split_place(text);
    if behind.is_empty() { Some(value) } else { None }
}
