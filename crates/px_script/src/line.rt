// One line of a script.
use px_event::{Cond, Event};
use px_value::Name;

/// What a thread does at a line.
#[derive(Drop, PartialEq, Eq)]
pub enum What {
    /// It posts the event.
    Post(Event),
    /// It goes on once the condition holds.
    Wait(Cond),
}

/// A line at which a thread does something.
#[derive(Drop, PartialEq, Eq)]
pub struct Line {
    /// Its number in the script, from 1.
    pub number: u32,
    pub what: What,
}

impl Line {
    /// The name of the state that it reports, if it reports one.
    pub(crate) fn reported(&self) -> Option<&Name> {
        match &self.what {
            What::Post(Event::Report { name, .. }) => Some(name),
            What::Post(_) | What::Wait(_) => None,
        }
    }
}
