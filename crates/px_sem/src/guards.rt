// What the transition table asks of the world, and what it answers.
use px_value::{Failure, NodeState, Outcome};

/// What decides a node's transition: facts on the world before the step.
#[derive(Clone, Copy, PartialEq, Eq)]
pub struct Guards {
    /// The node's own outcome and failure, which the rows that keep both hand on.
    pub outcome: Option<Outcome>,
    pub failure: Option<Failure>,
    pub parent_waiting: bool,
    pub parent_executing: bool,
    pub parent_finished: bool,
    pub ancestor_exit: bool,
    pub ancestor_invariant: bool,
    pub ancestor_end: bool,
    pub exit_true: bool,
    pub skip_true: bool,
    pub start_true: bool,
    pub pre_true: bool,
    pub invariant_false: bool,
    pub end_true: bool,
    pub post_true: bool,
    pub repeat_false: bool,
    pub repeat_true: bool,
    /// Every child is WAITING or FINISHED.
    pub children_rest: bool,
    pub handle_known: bool,
    /// A failing node may leave FAILING.
    pub ready: bool,
}

/// Where a transition leads: the state, the outcome and the failure after it.
#[derive(Clone, Copy, PartialEq, Eq)]
pub struct Arrival {
    pub to: NodeState,
    pub outcome: Option<Outcome>,
    pub failure: Option<Failure>,
}
