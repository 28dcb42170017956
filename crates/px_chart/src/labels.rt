// What is said of events, and of what moves do.
use crate::paths::last_name;
use crate::rows::{ABORT, COMMAND, Deed, UPDATE, WRITE};
use crate::values::{push_value, push_values};
use px_event::Event;
use px_pen::Pen;
use px_sem::Effect;
use px_value::{Name, Path, Value};
use std::alloc::Global;

/// The most characters of a label.
const LABEL: usize = 36;

/// How events are told: what stands before the rest of each, with its node in place of `{}`.
struct Wording {
    report: &'static str,
    handle: &'static str,
    returned: &'static str,
    abort_done: &'static str,
    acknowledged: &'static str,
    /// Whether of the node's path only the last name stands.
    is_short: bool,
}

const SHORT: Wording = Wording {
    report: "",
    handle: "{}: ",
    returned: "{} returns ",
    abort_done: "{} is aborted",
    acknowledged: "{} is acknowledged",
    is_short: true,
};

const AS_SCRIPT: Wording = Wording {
    report: "set ",
    handle: "handle {} ",
    returned: "return {} ",
    abort_done: "abort {}",
    acknowledged: "ack {}",
    is_short: false,
};

impl Wording {
    fn node<'p>(&self, path: &'p Path) -> &'p str {
        if self.is_short {
            last_name(path.as_str())
        } else {
            path.as_str()
        }
    }

    fn tell(&self, event: &Event, pen: &mut Pen) {
        match event {
            Event::Report { name, args, value } => {
                pen.push(self.report);
                push_report(name, args.as_slice(), value, pen);
            }
            Event::Handle { node, handle } => {
                pen.fill(self.handle, self.node(node));
                pen.push(handle.word());
            }
            Event::Return { node, value } => {
                pen.fill(self.returned, self.node(node));
                push_value(value, pen);
            }
            Event::AbortDone { node } => pen.fill(self.abort_done, self.node(node)),
            Event::Acknowledged { node } => pen.fill(self.acknowledged, self.node(node)),
        }
    }
}

/// What stands at the head of an event's column: the event with the last name of its node, of a long one the front.
pub fn event_label(alloc: Global, event: &Event) -> Pen {
    let mut whole = Pen::new(alloc);
    SHORT.tell(event, &mut whole);
    let mut label = Pen::new(alloc);
    label.append_front(&whole, LABEL, "..");
    label
}

/// Writes an event as a script spells it.
pub fn push_event(event: &Event, pen: &mut Pen) {
    AS_SCRIPT.tell(event, pen);
}

fn push_report(name: &Name, args: &[Value], value: &Value, pen: &mut Pen) {
    pen.push(name.as_str());
    if !args.is_empty() {
        push_values(args, pen);
    }
    pen.push(" = ");
    push_value(value, pen);
}

/// Writes what an effect does, and answers how it is marked; an assignment that writes nothing isn't.
pub fn push_effect(effect: &Effect, pen: &mut Pen) -> Option<&'static Deed> {
    match effect {
        Effect::NoWrite => None,
        Effect::Wrote {
            name,
            index,
            value,
            ..
        } => {
            push_written(name, *index, value, pen);
            Some(WRITE)
        }
        Effect::Sent { command, args } => {
            pen.fill("command {}", command.as_str());
            push_values(args.as_slice(), pen);
            Some(COMMAND)
        }
        Effect::Aborted { command } => {
            pen.fill("abort {}", command.as_str());
            Some(ABORT)
        }
        Effect::Updated { names, values } => {
            push_updated(names.as_slice(), values.as_slice(), pen);
            Some(UPDATE)
        }
    }
}

fn push_written(name: &Name, index: Option<u32>, value: &Value, pen: &mut Pen) {
    pen.push(name.as_str());
    if let Some(index) = index {
        pen.fill_each("[{}]", &[index]);
    }
    pen.push(" = ");
    push_value(value, pen);
}

fn push_updated(names: &[Name], values: &[Value], pen: &mut Pen) {
    pen.push("update");
    for (place, name) in names.iter().enumerate() {
        if let Some(value) = values.get(place) {
            pen.fill(" {} = ", name.as_str());
            push_value(value, pen);
        }
    }
}
