// What a node does: it assigns, commands or updates.
ghost use Rattle.std.specs.Prelude.{◌≡◌, map, IfOk};
ghost use Rattle.std.specs.Option.{option_map};
ghost use Rattle.px_core.specs.Expr.{term_of};
ghost use Rattle.px_core.specs.Plan.{body_data, pair_data, target_data};

use crate::expr::{self, Expr};
use px_value::{Name, NoMemory, Path};
use std::alloc::Global;

/// A variable, or an element of an array, that is written.
#[derive(Drop)]
pub struct Target {
    /// The node that declares the variable: the writing node or one of its ancestors.
    pub owner: Path,
    pub name: Name,
    /// Which element of an array, counted from 0; None for a scalar.
    pub index: Option<Expr>,
}

/// One named value of an update.
#[derive(Drop)]
pub struct Pair {
    pub name: Name,
    pub value: Expr,
}

/// What a node does (PLEXIL reference manual, "Node Types").
#[derive(Drop)]
pub enum Body {
    /// A List runs its children, an Empty node does nothing.
    Nothing,
    Assign {
        target: Target,
        value: Expr,
    },
    /// A call to the outside, and what is written with the value that it returns.
    Command {
        name: Name,
        args: Vec<Expr>,
        result: Option<Target>,
    },
    /// A report of named values to the planner.
    Update {
        pairs: Vec<Pair>,
    },
}

impl Target {
    /// An equal target.
    pub fn copy(&self, alloc: Global) -> Result<Target, NoMemory>
        ensures { IfOk result (λ copy. target_data copy ≡ target_data self.now) }
    {
        Ok(Target {
            owner: self.owner.copy(alloc)?,
            name: self.name.copy(alloc)?,
            index: copy_index(alloc, &self.index)?,
        })
    }
}

fn copy_index(alloc: Global, index: &Option<Expr>) -> Result<Option<Expr>, NoMemory>
    ensures { IfOk result (λ copy. option_map term_of copy ≡ option_map term_of index.now) }
{
    Ok(match index {
        Some(index) => Some(index.copy(alloc)?),
        None => None,
    })
}

impl Pair {
    /// An equal pair.
    pub fn copy(&self, alloc: Global) -> Result<Pair, NoMemory>
        ensures { IfOk result (λ copy. pair_data copy ≡ pair_data self.now) }
    {
        Ok(Pair {
            name: self.name.copy(alloc)?,
            value: self.value.copy(alloc)?,
        })
    }
}

impl Body {
    /// An equal body.
    pub fn copy(&self, alloc: Global) -> Result<Body, NoMemory>
        ensures { IfOk result (λ copy. body_data copy ≡ body_data self.now) }
    {
        match self {
            Body::Nothing => Ok(Body::Nothing),
            Body::Assign { target, value } => Ok(Body::Assign {
                target: target.copy(alloc)?,
                value: value.copy(alloc)?,
            }),
            Body::Command { name, args, result } => Ok(Body::Command {
                name: name.copy(alloc)?,
                args: expr::copy_each(alloc, args)?,
                result: copy_result(alloc, result)?,
            }),
            Body::Update { pairs } => Ok(Body::Update {
                pairs: copy_pairs(alloc, pairs)?,
            }),
        }
    }
}

fn copy_result(alloc: Global, target: &Option<Target>) -> Result<Option<Target>, NoMemory>
    ensures { IfOk result (λ copy. option_map target_data copy ≡ option_map target_data target.now) }
{
    Ok(match target {
        Some(target) => Some(target.copy(alloc)?),
        None => None,
    })
}

fn copy_pairs(alloc: Global, pairs: &[Pair]) -> Result<Vec<Pair>, NoMemory>
    ensures { IfOk result (λ copies. map pair_data copies.items ≡ map pair_data pairs.now) }
{
    let mut copies = Vec::with_capacity(alloc, pairs.len())?;
    for pair in pairs {
        copies.push(pair.copy(alloc)?)?;
    }
    Ok(copies)
}
