// The conditions of a node.
ghost use Rattle.std.specs.Prelude.{◌≡◌, IfOk};
ghost use Rattle.px_core.specs.Plan.{condition_terms};

use crate::expr::Expr;
use px_value::NoMemory;
use std::alloc::Global;

/// Which of the eight conditions of a node (PLEXIL reference manual, "Node Conditions").
#[derive(Clone, Copy, Debug, PartialEq, Eq, Hash)]
pub enum ConditionKind {
    Start,
    End,
    Exit,
    Skip,
    Repeat,
    Pre,
    Post,
    Invariant,
}

/// The eight conditions of a node, each given or its default (PLEXIL reference manual, "Node Conditions").
#[derive(Drop)]
pub struct Conditions {
    /// When a waiting node may begin.
    pub start: Expr,
    /// When an executing node ends.
    pub end: Expr,
    /// When the node is interrupted.
    pub exit: Expr,
    /// When a waiting node is passed over.
    pub skip: Expr,
    /// Whether a node that has ended begins again.
    pub repeat: Expr,
    /// What must hold as the node begins.
    pub pre: Expr,
    /// What must hold as the node ends.
    pub post: Expr,
    /// What must not become false while the node executes.
    pub invariant: Expr,
}

impl Conditions {
    /// Equal conditions.
    pub fn copy(&self, alloc: Global) -> Result<Conditions, NoMemory>
        ensures { IfOk result (λ copy. condition_terms copy ≡ condition_terms self.now) }
    {
        Ok(Conditions {
            start: self.start.copy(alloc)?,
            end: self.end.copy(alloc)?,
            exit: self.exit.copy(alloc)?,
            skip: self.skip.copy(alloc)?,
            repeat: self.repeat.copy(alloc)?,
            pre: self.pre.copy(alloc)?,
            post: self.post.copy(alloc)?,
            invariant: self.invariant.copy(alloc)?,
        })
    }
}
