// A state of the outside.
ghost use Rattle.std.specs.Prelude.{◌≡◌};
ghost use Rattle.px_sem.specs.World.{is_same_state};

use px_event::Values;
use px_value::Name;
use std::marker::Model;

/// A state of the outside that plans look up: a name and arguments.
#[derive(Drop, PartialEq, Eq, Hash)]
pub struct LookState {
    name: Name,
    args: Values,
}

impl Model for LookState {
    ghost use Rattle.px_sem.specs.World.{LookState as State};

    ghost Value = { State };

    ghost view = { λ state. record { name = state.name; args = state.args } };

    ghost inverse = { λ state. record { name = state.name; args = state.args } };
}

impl LookState {
    /// The state of this name and these arguments.
    pub fn new(name: Name, args: Values) -> LookState
        ensures { result ≡ record { name = name; args = args } }
    {
        LookState { name, args }
    }

    /// Whether it is the state of this name and these arguments.
    pub(crate) fn is_of(&self, name: &Name, args: &Values) -> bool
        ensures { result ≡ is_same_state (record { name = name.now; args = args.now }) self.now }
    {
        *name == self.name && *args == self.args
    }
}
