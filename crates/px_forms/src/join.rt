// What is said of all children of a List, and of some, joined in halves so that no expression is deep.
ghost use Rattle.std.specs.Prelude.{◌≡◌, IfOk, map};
ghost use Rattle.px_core.specs.Expr.{Binary as BinaryTerm, Literal as LiteralTerm, term_in};
ghost use Rattle.px_core.specs.Joined.{joined};
ghost use Rattle.px_forms.specs.Forms.{done, ended};
ghost use Rattle.px_forms.specs.Joining.{all, some};
ghost use Rattle.px_forms.specs.Said.{said};

use px_core::{BinaryOp, Expr};
use px_value::{CompareOp, NoMemory, NodeState, Outcome, Path, Value};
use std::alloc::Global;

/// What is said of a child.
#[derive(Clone, Copy)]
pub(crate) enum Said {
    Done,
    /// Done, with this outcome.
    Ended(Outcome),
}

/// The node at a path is FINISHED.
pub(crate) fn done(alloc: Global, path: &Path) -> Result<Box<Expr>, NoMemory>
    ensures { IfOk result (λ made. term_in made ≡ done path.now) }
{
    let state = Box::new(alloc, Expr::StateOf(path.copy(alloc)?))?;
    equals(alloc, state, Value::State(NodeState::Finished))
}

/// The node at a path is FINISHED with an outcome.
fn ended(alloc: Global, outcome: Outcome, path: &Path) -> Result<Box<Expr>, NoMemory>
    ensures { IfOk result (λ made. term_in made ≡ ended outcome path.now) }
{
    let finished = done(alloc, path)?;
    let has = Box::new(alloc, Expr::OutcomeOf(path.copy(alloc)?))?;
    let so = equals(alloc, has, Value::Outcome(outcome))?;
    Expr::binary(alloc, BinaryOp::And, finished, so)
}

/// An expression is a value.
fn equals(alloc: Global, expr: Box<Expr>, value: Value) -> Result<Box<Expr>, NoMemory>
    ensures { IfOk result (λ made. term_in made
        ≡ BinaryTerm (BinaryOp.Compare CompareOp.Equal) (term_in expr) (LiteralTerm value)) }
{
    let value = Expr::literal(alloc, value)?;
    Expr::binary(alloc, BinaryOp::Compare(CompareOp::Equal), expr, value)
}

impl Said {
    fn of(self, alloc: Global, path: &Path) -> Result<Box<Expr>, NoMemory>
        ensures { IfOk result (λ made. term_in made ≡ said self path.now) }
    {
        match self {
            Said::Done => done(alloc, path),
            Said::Ended(outcome) => ended(alloc, outcome, path),
        }
    }
}

/// This is said of all children, by `&&`.
pub(crate) fn all(alloc: Global, what: Said, paths: &[Path]) -> Result<Box<Expr>, NoMemory>
    ensures { IfOk result (λ made. term_in made ≡ all (map (said what) paths.now)) }
{
    joined(alloc, BinaryOp::And, true, what, paths)
}

/// This is said of some child, by `||`.
pub(crate) fn some(alloc: Global, what: Said, paths: &[Path]) -> Result<Box<Expr>, NoMemory>
    ensures { IfOk result (λ made. term_in made ≡ some (map (said what) paths.now)) }
{
    joined(alloc, BinaryOp::Or, false, what, paths)
}

fn joined(
    alloc: Global,
    op: BinaryOp,
    none: bool,
    what: Said,
    paths: &[Path],
) -> Result<Box<Expr>, NoMemory>
    ensures { IfOk result (λ made. term_in made ≡ joined op none (map (said what) paths.now)) }
{
    match paths {
        [] => Expr::literal(alloc, Value::Boolean(none)),
        [path] => what.of(alloc, path),
        _ => {
            let (front, back) = paths.split_at(paths.len() / 2);
            let front = joined(alloc, op, none, what, front)?;
            let back = joined(alloc, op, none, what, back)?;
            Expr::binary(alloc, op, front, back)
        }
    }
}
