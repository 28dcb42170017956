// What is begun in a stepper.

/// What is begun: nothing, event 0, or an event.
#[derive(Clone, Copy, Debug, PartialEq, Eq)]
pub enum Begun {
    Nothing,
    Start,
    Event,
}
