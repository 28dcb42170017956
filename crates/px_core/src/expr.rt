// Expressions: what conditions, targets and bodies compute.
ghost use Rattle.std.specs.Prelude.{◌≡◌, map, IfOk};
ghost use Rattle.px_core.specs.Expr.{Binary as BinaryTerm, Literal as LiteralTerm, Unary as UnaryTerm, Var as VarTerm, term_in, term_of};

use px_value::{ArithOp, CompareOp, Name, NoMemory, Path, Value};
use std::alloc::Global;

/// The operators with one operand (PLEXIL reference manual, "Expressions").
#[derive(Clone, Copy, PartialEq, Eq, Hash)]
pub enum UnaryOp {
    /// `!`
    Not,
    /// `-`
    Minus,
    /// `isKnown`
    IsKnown,
    /// `abs`
    Abs,
    /// `strlen`, the number of bytes
    Length,
}

/// The operators with two operands (PLEXIL reference manual, "Expressions").
#[derive(Clone, Copy, PartialEq, Eq)]
pub enum BinaryOp {
    /// `&&`
    And,
    /// `||`
    Or,
    /// `XOR`
    Xor,
    /// `==`, `!=`, `<`, `<=`, `>` and `>=`
    Compare(CompareOp),
    /// `+`, of Integers or texts
    Add,
    /// `-`, `*`, `/`, `%`, `min` and `max`
    Arith(ArithOp),
}

/// How a lookup asks for a state of the outside (PLEXIL reference manual, "Lookups").
#[derive(Clone, Copy, PartialEq, Eq, Hash)]
pub enum LookWord {
    Lookup,
    LookupNow,
    LookupOnChange,
}

/// An expression (PLEXIL reference manual, "Expressions"). Each path is that of a node, from the root.
#[derive(Drop)]
pub enum Expr {
    Literal(Value),
    /// The variable that the node `owner` declares.
    Var {
        owner: Path,
        name: Name,
    },
    /// An element of the array that the node `owner` declares, counted from 0.
    Cell {
        owner: Path,
        name: Name,
        index: Box<Expr>,
    },
    StateOf(Path),
    OutcomeOf(Path),
    FailureOf(Path),
    /// What the outside has said of the command of a Command node.
    HandleOf(Path),
    /// Whether the outside has acknowledged the update of an Update node.
    Acknowledged(Path),
    /// The last report of the state that the name and the arguments' values make.
    Look {
        word: LookWord,
        name: Name,
        args: Vec<Expr>,
        /// How far a report must lie from the value that is kept to take its place; None where each one does.
        tolerance: Option<u32>,
    },
    Unary {
        op: UnaryOp,
        arg: Box<Expr>,
    },
    Binary {
        op: BinaryOp,
        left: Box<Expr>,
        right: Box<Expr>,
    },
}

// What is often made, in the box that the expression round it holds.
impl Expr {
    /// A value.
    pub fn literal(alloc: Global, value: Value) -> Result<Box<Expr>, NoMemory>
        ensures { IfOk result (λ made. term_in made ≡ LiteralTerm value) }
    {
        Ok(Box::new(alloc, Expr::Literal(value))?)
    }

    /// The variable that the node at a path declares.
    pub fn variable(alloc: Global, owner: &Path, name: &Name) -> Result<Box<Expr>, NoMemory>
        ensures { IfOk result (λ made. term_in made ≡ VarTerm owner.now name.now) }
    {
        let variable = Expr::Var {
            owner: owner.copy(alloc)?,
            name: name.copy(alloc)?,
        };
        Ok(Box::new(alloc, variable)?)
    }

    /// An operation with one operand.
    pub fn unary(alloc: Global, op: UnaryOp, arg: Box<Expr>) -> Result<Box<Expr>, NoMemory>
        ensures { IfOk result (λ made. term_in made ≡ UnaryTerm op (term_in arg)) }
    {
        Ok(Box::new(alloc, Expr::Unary { op, arg })?)
    }

    /// An operation with two operands.
    pub fn binary(
        alloc: Global,
        op: BinaryOp,
        left: Box<Expr>,
        right: Box<Expr>,
    ) -> Result<Box<Expr>, NoMemory>
        ensures { IfOk result (λ made. term_in made ≡ BinaryTerm op (term_in left) (term_in right)) }
    {
        Ok(Box::new(alloc, Expr::Binary { op, left, right })?)
    }
}

impl Expr {
    /// An equal expression.
    #[cycle(copy)]
    pub fn copy(&self, alloc: Global) -> Result<Expr, NoMemory>
        ensures { IfOk result (λ expr. term_of expr ≡ term_of self.now) }
    {
        match self {
            Expr::Literal(value) => Ok(Expr::Literal(value.copy(alloc)?)),
            Expr::Var { owner, name } => Ok(Expr::Var {
                owner: owner.copy(alloc)?,
                name: name.copy(alloc)?,
            }),
            Expr::Cell { owner, name, index } => Ok(Expr::Cell {
                owner: owner.copy(alloc)?,
                name: name.copy(alloc)?,
                index: index.boxed_copy(alloc)?,
            }),
            Expr::StateOf(path) => Ok(Expr::StateOf(path.copy(alloc)?)),
            Expr::OutcomeOf(path) => Ok(Expr::OutcomeOf(path.copy(alloc)?)),
            Expr::FailureOf(path) => Ok(Expr::FailureOf(path.copy(alloc)?)),
            Expr::HandleOf(path) => Ok(Expr::HandleOf(path.copy(alloc)?)),
            Expr::Acknowledged(path) => Ok(Expr::Acknowledged(path.copy(alloc)?)),
            Expr::Look {
                word,
                name,
                args,
                tolerance,
            } => Ok(Expr::Look {
                word: *word,
                name: name.copy(alloc)?,
                args: copy_each(alloc, args)?,
                tolerance: *tolerance,
            }),
            Expr::Unary { op, arg } => Ok(Expr::Unary {
                op: *op,
                arg: arg.boxed_copy(alloc)?,
            }),
            Expr::Binary { op, left, right } => Ok(Expr::Binary {
                op: *op,
                left: left.boxed_copy(alloc)?,
                right: right.boxed_copy(alloc)?,
            }),
        }
    }

    /// An equal expression, in a box.
    #[cycle(copy)]
    pub fn boxed_copy(&self, alloc: Global) -> Result<Box<Expr>, NoMemory>
        ensures { IfOk result (λ boxed. term_of boxed.value ≡ term_of self.now) }
    {
        let expr = self.copy(alloc)?;
        Ok(Box::new(alloc, expr)?)
    }
}

/// Equal expressions, in their order.
#[cycle(copy)]
pub(crate) fn copy_each(alloc: Global, exprs: &[Expr]) -> Result<Vec<Expr>, NoMemory>
    ensures { IfOk result (λ copies. map term_of copies.items ≡ map term_of exprs.now) }
{
    let mut copies = Vec::with_capacity(alloc, exprs.len())?;
    for expr in exprs {
        copies.push(expr.copy(alloc)?)?;
    }
    Ok(copies)
}
