// What the text of a plan is refused for, stage by stage.
ghost use Rattle.std.specs.Prelude.{◌≡◌};
ghost use Rattle.px_syntax.specs.declared.fault.CheckFault.TheVariants.{NoMemory as NoMemoryToCheck};
ghost use Rattle.px_syntax.specs.declared.fault.ExpandFault.TheVariants.{NoMemory as NoMemoryToExpand};
ghost use Rattle.px_syntax.specs.declared.fault.ParseFault.TheVariants.{NoMemory as NoMemoryToParse};

use px_lex::LexFault;
use px_value::NoMemory;
use std::alloc::AllocFailed;
use thiserror::Error;

/// Why tokens are no plan or no expression. `token` is the number of a token, counted from 0.
#[derive(Debug, Drop, PartialEq, Eq, Error)]
pub enum ParseFault {
    /// The first opening bracket inside 64 others, or the first operator behind 64 others of its statement.
    #[error("deep at token {token}")]
    Deep { token: usize },
    /// Nothing that is allowed goes on with this token; the number of tokens where the end comes too early.
    #[error("syntax at token {token}")]
    SyntaxFault { token: usize },
    #[error("out of memory")]
    NoMemory,
}

/// What is wrong in a tree. Each kind has the number that is told of it.
#[derive(Clone, Copy, PartialEq, Eq)]
pub enum FaultKind {
    /// A variable that isn't visible.
    Undeclared = 1,
    /// A second declaration, or a second label, of one name in one place.
    Redeclared = 2,
    /// An expression, an initial value or an answer of another type than is wanted there; an array that is read without
    /// an index, or a scalar with one; a tolerance of a lookup that gives a Boolean or a String.
    TypeDiffers = 3,
    /// An array that is written without an index, or a scalar with one.
    NotAssignable = 4,
    /// No such node is there, or it has no such attribute.
    NoSuchNode = 5,
    /// A declared command or lookup with another number of arguments.
    ArgCount = 6,
    /// A second one of a block's conditions, or a second priority.
    DoubleCondition = 7,
    /// More elements, initial values, arguments, parameters, pairs, cells or distinct tolerances than there may be, or
    /// no element.
    TooLarge = 8,
}

impl FaultKind {
    ghost use Rattle.px_syntax.specs.Fault.{number_of};
    ghost use Rattle.px_syntax.specs.declared.fault.CheckFault.TheVariants.{Fault};

    /// The fault of this kind at a token.
    pub fn at(self, token: usize) -> CheckFault
        ensures { result ≡ Fault (number_of self) token }
    {
        CheckFault::Fault {
            kind: self as u8,
            token,
        }
    }
}

/// Why a tree is no plan that can be run.
#[derive(Debug, Drop, PartialEq, Eq, Error)]
pub enum CheckFault {
    /// The first fault by its token, and of several at one token the least kind; `kind` is the number of a `FaultKind`.
    #[error("check {kind} at token {token}")]
    Fault { kind: u8, token: usize },
    #[error("out of memory")]
    NoMemory,
}

/// Why a tree was not expanded.
#[derive(Debug, Drop, PartialEq, Eq, Error)]
pub enum ExpandFault {
    /// The tree has this many nodes when it is expanded, over 4,096, or a path of over 5,000 bytes.
    #[error("too many nodes {nodes}")]
    TooMany { nodes: u32 },
    #[error("out of memory")]
    NoMemory,
}

/// Why bytes are no plan that can be run.
#[derive(Debug, Drop, PartialEq, Eq, Error)]
pub enum PlanFault {
    /// The bytes are UTF-8 up to this one, and no further.
    #[error("not text at byte {at}")]
    NotText { at: usize },
    #[error("{0}")]
    Lex(LexFault),
    #[error("{0}")]
    Parse(ParseFault),
    #[error("{0}")]
    Check(CheckFault),
    #[error("{0}")]
    Expand(ExpandFault),
    #[error("out of memory")]
    NoMemory,
}

impl From<NoMemory> for ParseFault {
    ghost from_gives = { λ _ fault. fault ≡ NoMemoryToParse };

    fn from(_: NoMemory) -> Self {
        ParseFault::NoMemory
    }
}

impl<T: Drop> From<AllocFailed<T>> for ParseFault {
    ghost from_gives = { λ _ fault. fault ≡ NoMemoryToParse };

    fn from(_: AllocFailed<T>) -> Self {
        ParseFault::NoMemory
    }
}

impl From<NoMemory> for CheckFault {
    ghost from_gives = { λ _ fault. fault ≡ NoMemoryToCheck };

    fn from(_: NoMemory) -> Self {
        CheckFault::NoMemory
    }
}

impl From<NoMemory> for ExpandFault {
    ghost from_gives = { λ _ fault. fault ≡ NoMemoryToExpand };

    fn from(_: NoMemory) -> Self {
        ExpandFault::NoMemory
    }
}
