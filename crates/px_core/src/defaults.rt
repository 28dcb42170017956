// The conditions and the priority that a node has where its plan gives none.
ghost use Rattle.std.specs.Prelude.{◌≡◌, IfOk};
ghost use Rattle.px_core.specs.Defaults.{is_finished, each_finished, default_end, default_conditions};
ghost use Rattle.px_core.specs.Joined.{truth};
ghost use Rattle.px_core.specs.Plan.{condition_terms};
ghost use Rattle.px_core.specs.Expr.{Binary, term_of};

use crate::conditions::Conditions;
use crate::expr::{BinaryOp, Expr, UnaryOp};
use crate::node::Kind;
use px_value::{CompareOp, NoMemory, NodeState, Path, Value};
use std::alloc::Global;

/// The priority of a node for which its plan gives none (PLEXIL reference manual, "Assignment Nodes").
pub const DEFAULT_PRIORITY: u32 = 100000;

impl Conditions {
    /// The conditions of a node for which its plan gives none, by the node's kind, its path and the paths of its
    /// children (PLEXIL reference manual, "Node Conditions").
    pub fn defaults(
        alloc: Global,
        kind: Kind,
        path: &Path,
        children: &[Path],
    ) -> Result<Conditions, NoMemory>
        ensures { IfOk result
            (λ made. condition_terms made ≡ default_conditions kind path.now children.now) }
    {
        let end = default_end(alloc, kind, path, children)?;
        Ok(Conditions {
            start: truth(true),
            end,
            exit: truth(false),
            skip: truth(false),
            repeat: truth(false),
            pre: truth(true),
            post: truth(true),
            invariant: truth(true),
        })
    }
}

fn truth(holds: bool) -> Expr
    ensures { term_of result ≡ truth holds }
{
    Expr::Literal(Value::Boolean(holds))
}

/// What ends a node of this kind.
fn default_end(alloc: Global, kind: Kind, path: &Path, children: &[Path]) -> Result<Expr, NoMemory>
    ensures { IfOk result (λ expr. term_of expr ≡ default_end kind path.now children.now) }
{
    match kind {
        Kind::List => each_finished(alloc, children),
        Kind::Empty | Kind::Assignment => Ok(truth(true)),
        Kind::Command => Ok(Expr::Unary {
            op: UnaryOp::IsKnown,
            arg: Box::new(alloc, Expr::HandleOf(path.copy(alloc)?))?,
        }),
        Kind::Update => Ok(Expr::Acknowledged(path.copy(alloc)?)),
    }
}

/// The node at this path is FINISHED.
fn is_finished(alloc: Global, path: &Path) -> Result<Expr, NoMemory>
    ensures { IfOk result (λ expr. term_of expr ≡ is_finished path.now) }
{
    Ok(Expr::Binary {
        op: BinaryOp::Compare(CompareOp::Equal),
        left: Box::new(alloc, Expr::StateOf(path.copy(alloc)?))?,
        right: Box::new(alloc, Expr::Literal(Value::State(NodeState::Finished)))?,
    })
}

/// Each node at these paths is FINISHED, joined by halves, so that the expression isn't deep.
fn each_finished(alloc: Global, paths: &[Path]) -> Result<Expr, NoMemory>
    ensures { IfOk result (λ expr. term_of expr ≡ each_finished paths.now) }
{
    match paths {
        [] => Ok(truth(true)),
        [path] => is_finished(alloc, path),
        _ => {
            let (front, back) = paths.split_at(paths.len() / 2);
            let front = each_finished(alloc, front)?;
            let back = each_finished(alloc, back)?;
            both(alloc, front, back)
        }
    }
}

fn both(alloc: Global, left: Expr, right: Expr) -> Result<Expr, NoMemory>
    ensures { IfOk result
        (λ expr. term_of expr ≡ Binary BinaryOp.And (term_of left) (term_of right)) }
{
    Ok(Expr::Binary {
        op: BinaryOp::And,
        left: Box::new(alloc, left)?,
        right: Box::new(alloc, right)?,
    })
}
