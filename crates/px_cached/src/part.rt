// A part of a condition.
ghost use Rattle.std.specs.Prelude.{◌≡◌, length};
ghost use Rattle.px_cached.specs.Network.{IsAmong, kleene, root_truth};

use px_flat::NumberedExpr;

/// What joins two parts.
#[derive(Clone, Copy)]
pub(crate) enum Joint {
    And,
    Or,
    /// The negation of `Or`, as in the Invariant of a `Sequence`.
    Nor,
}

impl Joint {
    /// The truth of the joint over two truths, where None is UNKNOWN (PLEXIL reference manual, "Expressions").
    pub(crate) fn over(self, left: Option<bool>, right: Option<bool>) -> Option<bool>
        ensures { result ≡ kleene self left right }
    {
        match self {
            Joint::And => match (left, right) {
                (Some(false), _) | (_, Some(false)) => Some(false),
                (Some(true), Some(true)) => Some(true),
                _ => None,
            },
            Joint::Or => match (left, right) {
                (Some(true), _) | (_, Some(true)) => Some(true),
                (Some(false), Some(false)) => Some(false),
                _ => None,
            },
            Joint::Nor => match (left, right) {
                (Some(true), _) | (_, Some(true)) => Some(false),
                (Some(false), Some(false)) => Some(true),
                _ => None,
            },
        }
    }
}

#[derive(Drop)]
pub(crate) enum Part {
    /// What is evaluated whole.
    Whole(NumberedExpr),
    /// Two parts, both laid before.
    Joined { joint: Joint, left: u32, right: u32 },
}

/// What a part is of.
#[derive(Clone, Copy)]
pub(crate) enum Above {
    /// It is a condition of this node.
    Condition(u32),
    Part(u32),
}

/// What keeps the truth of a condition.
#[derive(Clone, Copy)]
pub(crate) enum Root {
    /// The condition is this constant, and has no part.
    Constant(bool),
    /// The part that spells it.
    Part(u32),
}

impl Root {
    /// The truth of the condition, where these are those of the parts.
    pub(crate) fn truth(self, truths: &[Option<bool>]) -> Option<bool>
        requires { IsAmong (length truths.now) self }
        ensures { result ≡ root_truth truths.now self }
    {
        match self {
            Root::Constant(truth) => Some(truth),
            Root::Part(part) => truths[part as usize],
        }
    }
}
