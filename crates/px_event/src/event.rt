// What a thread posts.
ghost use Rattle.std.specs.Prelude.{◌≡◌, ◌&&◌, IfOk, length, nat_le};
ghost use Rattle.std.specs.List.{list_all};
ghost use Rattle.px_value.specs.Arithmetic.{fits_32_bits};
ghost use Rattle.px_value.specs.Name.{is_identifier};
ghost use Rattle.px_value.specs.Path.{is_path};
ghost use Rattle.px_event.specs.Values.{is_plain, is_plain_or_unknown};

use crate::values::Values;
use px_value::{
    Handle, NAME_LIMIT, Name, NoMemory, PATH_LIMIT, Path, TEXT_LIMIT, Value, is_identifier,
};
use std::alloc::Global;

/// The most arguments that a report has.
pub const ARGUMENT_LIMIT: usize = 8;

/// What the outside tells a plan (PLEXIL reference manual, "Lookups", "Commands" and "Updates").
#[derive(Drop, PartialEq, Eq)]
pub enum Event {
    /// The state of this name and these arguments has this value.
    Report {
        name: Name,
        args: Values,
        value: Value,
    },
    /// This is how far the node's command has come.
    Handle {
        node: Path,
        handle: Handle,
    },
    /// The node's command has returned this value.
    Return {
        node: Path,
        value: Value,
    },
    /// The abort of the node's command is done.
    AbortDone {
        node: Path,
    },
    /// The node's update is acknowledged.
    Acknowledged {
        node: Path,
    },
}

impl Event {
    ghost use Rattle.px_event.specs.Fit.{is_fit_event};

    /// Whether the event may be posted: a report has an identifier as its name and at most 8 arguments, each a Boolean,
    /// an Integer or a Text, and a reported or returned value is one of these or UNKNOWN.
    pub fn is_fit(&self) -> bool
        ensures { result ≡ is_fit_event self.now }
    {
        match self {
            Event::Report { name, args, value } => {
                is_report_name(name)
                    && args.as_slice().len() <= ARGUMENT_LIMIT
                    && are_plain(args.as_slice())
                    && is_plain_or_unknown(value)
            }
            Event::Return { node, value } => is_path(node) && is_plain_or_unknown(value),
            Event::Handle { node, .. } | Event::AbortDone { node } | Event::Acknowledged { node } =>
                is_path(node),
        }
    }

    /// An equal event.
    pub fn copy(&self, alloc: Global) -> Result<Event, NoMemory>
        ensures { IfOk result (λ event. event ≡ self.now) }
    {
        match self {
            Event::Report { name, args, value } => Ok(Event::Report {
                name: name.copy(alloc)?,
                args: args.copy(alloc)?,
                value: value.copy(alloc)?,
            }),
            Event::Handle { node, handle } => Ok(Event::Handle {
                node: node.copy(alloc)?,
                handle: *handle,
            }),
            Event::Return { node, value } => Ok(Event::Return {
                node: node.copy(alloc)?,
                value: value.copy(alloc)?,
            }),
            Event::AbortDone { node } => Ok(Event::AbortDone {
                node: node.copy(alloc)?,
            }),
            Event::Acknowledged { node } => Ok(Event::Acknowledged {
                node: node.copy(alloc)?,
            }),
        }
    }
}

/// Whether the name is an identifier. That it has at most 64 bytes goes without saying.
fn is_report_name(name: &Name) -> bool
    ensures { result ≡ (is_identifier name.now && nat_le (length name.now) 64) }
{
    is_identifier(name.as_str().as_bytes()) && name.as_str().len() <= NAME_LIMIT
}

fn is_path(node: &Path) -> bool
    ensures { result ≡ is_path node.now }
{
    node.as_str().len() <= PATH_LIMIT
}

fn are_plain(values: &[Value]) -> bool
    ensures { result ≡ list_all is_plain values.now }
{
    values.iter().all(|value| is_plain(value))
}

/// Whether the value is a Boolean, an Integer or a Text.
fn is_plain(value: &Value) -> bool
    ensures { result ≡ is_plain value.now }
{
    match value {
        Value::Boolean(_) => true,
        Value::Integer(number) => is_any_integer(*number),
        Value::Text(text) => text.as_str().len() <= TEXT_LIMIT,
        _ => false,
    }
}

fn is_any_integer(number: i32) -> bool
    ensures { result ≡ fits_32_bits number }
{
    true
}

fn is_plain_or_unknown(value: &Value) -> bool
    ensures { result ≡ is_plain_or_unknown value.now }
{
    matches!(value, Value::Unknown) || is_plain(value)
}
