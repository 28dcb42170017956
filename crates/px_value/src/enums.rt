// What is said of a node: its state, how it ended, why, and what became of its command.
ghost use Rattle.std.specs.Prelude.{◌≡◌};

/// Where a node stands in its life (PLEXIL reference manual, "Node States").
#[derive(Clone, Copy, Debug, PartialEq, Eq, Hash)]
pub enum NodeState {
    Inactive,
    Waiting,
    Executing,
    Finishing,
    IterationEnded,
    Failing,
    Finished,
}

/// How a node ended (PLEXIL reference manual, "Node Outcomes").
#[derive(Clone, Copy, Debug, PartialEq, Eq, Hash)]
pub enum Outcome {
    Success,
    Failure,
    Skipped,
    Interrupted,
}

/// Why a node failed or was interrupted (PLEXIL reference manual, "Failure Types").
#[derive(Clone, Copy, Debug, PartialEq, Eq, Hash)]
pub enum Failure {
    PreConditionFailed,
    PostConditionFailed,
    InvariantConditionFailed,
    ParentFailed,
    Exited,
    ParentExited,
}

/// What the outside has said of a command (PLEXIL reference manual, "Command Handles").
#[derive(Clone, Copy, Debug, PartialEq, Eq, Hash)]
pub enum Handle {
    CommandSentToSystem,
    CommandAccepted,
    CommandRcvdBySystem,
    CommandFailed,
    CommandDenied,
    CommandSuccess,
}

impl NodeState {
    ghost use Rattle.px_value.specs.Enums.{state_word};

    /// The state's name in plans, traces and scripts.
    pub fn word(self) -> &'static str
        ensures { result.now ≡ state_word self }
    {
        match self {
            NodeState::Inactive => "INACTIVE",
            NodeState::Waiting => "WAITING",
            NodeState::Executing => "EXECUTING",
            NodeState::Finishing => "FINISHING",
            NodeState::IterationEnded => "ITERATION_ENDED",
            NodeState::Failing => "FAILING",
            NodeState::Finished => "FINISHED",
        }
    }
}

impl Outcome {
    ghost use Rattle.px_value.specs.Enums.{outcome_word};

    /// The outcome's name in plans, traces and scripts.
    pub fn word(self) -> &'static str
        ensures { result.now ≡ outcome_word self }
    {
        match self {
            Outcome::Success => "SUCCESS",
            Outcome::Failure => "FAILURE",
            Outcome::Skipped => "SKIPPED",
            Outcome::Interrupted => "INTERRUPTED",
        }
    }
}

impl Failure {
    ghost use Rattle.px_value.specs.Enums.{failure_word};

    /// The failure's name in plans, traces and scripts.
    pub fn word(self) -> &'static str
        ensures { result.now ≡ failure_word self }
    {
        match self {
            Failure::PreConditionFailed => "PRE_CONDITION_FAILED",
            Failure::PostConditionFailed => "POST_CONDITION_FAILED",
            Failure::InvariantConditionFailed => "INVARIANT_CONDITION_FAILED",
            Failure::ParentFailed => "PARENT_FAILED",
            Failure::Exited => "EXITED",
            Failure::ParentExited => "PARENT_EXITED",
        }
    }
}

impl Handle {
    ghost use Rattle.px_value.specs.Enums.{handle_word};

    /// The handle's name in plans, traces and scripts.
    pub fn word(self) -> &'static str
        ensures { result.now ≡ handle_word self }
    {
        match self {
            Handle::CommandSentToSystem => "COMMAND_SENT_TO_SYSTEM",
            Handle::CommandAccepted => "COMMAND_ACCEPTED",
            Handle::CommandRcvdBySystem => "COMMAND_RCVD_BY_SYSTEM",
            Handle::CommandFailed => "COMMAND_FAILED",
            Handle::CommandDenied => "COMMAND_DENIED",
            Handle::CommandSuccess => "COMMAND_SUCCESS",
        }
    }
}
