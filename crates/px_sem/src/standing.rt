// Whether a plan has come to its end.
use px_value::{Failure, Outcome};

/// How a plan stands: it runs, or its root has finished.
#[derive(Clone, Copy, PartialEq, Eq)]
pub enum Standing {
    Running,
    Finished {
        outcome: Outcome,
        failure: Option<Failure>,
    },
}
