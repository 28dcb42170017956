// What is begun in a machine.
ghost use Rattle.std.specs.Prelude.{◌≡◌};
ghost use Rattle.px_machine.specs.Begun.{heard_of};

/// What is begun: nothing, event 0, or an event.
#[derive(Clone, Copy, Debug, PartialEq, Eq)]
pub enum Begun {
    Nothing,
    Start,
    /// With the lookup name that it reports, where the plan looks that name up.
    Event { heard: Option<u32> },
}

impl Begun {
    /// The lookup name that the event reports.
    pub(crate) fn heard(self) -> Option<u32>
        ensures { result ≡ heard_of self }
    {
        match self {
            Begun::Event { heard } => heard,
            Begun::Nothing | Begun::Start => None,
        }
    }
}
