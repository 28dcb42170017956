// The expressions for which there are short forms: that a node is FINISHED, and with which outcome.
use px_core::{BinaryOp, Expr};
use px_value::{CompareOp, NodeState, Outcome, Path, Value};

/// The node that an expression says is FINISHED, where it says that and no more.
pub(super) fn finished(expr: &Expr) -> Option<&Path> {
    match expr {
        Expr::Binary {
            op: BinaryOp::Compare(CompareOp::Equal),
            left,
            right,
        } => match (&**left, &**right) {
            (Expr::StateOf(path), Expr::Literal(Value::State(NodeState::Finished))) => Some(path),
            _ => None,
        },
        _ => None,
    }
}

/// The node that an expression says is FINISHED and has this outcome, where it says that and no more.
pub(super) fn ended(expr: &Expr, outcome: Outcome) -> Option<&Path> {
    match expr {
        Expr::Binary {
            op: BinaryOp::And,
            left,
            right,
        } => match finished(left) {
            Some(path) if has_outcome(right, path, outcome) => Some(path),
            _ => None,
        },
        _ => None,
    }
}

// Whether an expression says that a node has this outcome, and no more.
fn has_outcome(expr: &Expr, path: &Path, outcome: Outcome) -> bool {
    match expr {
        Expr::Binary {
            op: BinaryOp::Compare(CompareOp::Equal),
            left,
            right,
        } => match (&**left, &**right) {
            (Expr::OutcomeOf(node), Expr::Literal(Value::Outcome(value))) => {
                node == path && *value == outcome
            }
            _ => false,
        },
        _ => false,
    }
}
