// What can be asked of those below.
ghost use Rattle.std.specs.Prelude.{◌≡◌};
ghost use Rattle.px_told.specs.Asking.{either};

/// What a node asks of all nodes below it, or what all nodes above it ask of one.
#[derive(Clone, Copy, Debug, PartialEq, Eq)]
pub struct Asks {
    /// To leave by an Exit condition.
    pub exit: bool,
    /// To fail by an Invariant condition.
    pub invariant: bool,
    /// To stop, since an ancestor has ended.
    pub end: bool,
}

impl Asks {
    /// Of one that asks nothing.
    pub const NOTHING: Asks = Asks {
        exit: false,
        invariant: false,
        end: false,
    };

    /// What either asks.
    pub fn or(self, other: Asks) -> Asks
        ensures { result ≡ either self other }
    {
        Asks {
            exit: self.exit || other.exit,
            invariant: self.invariant || other.invariant,
            end: self.end || other.end,
        }
    }
}
