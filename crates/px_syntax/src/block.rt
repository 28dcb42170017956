// Blocks, with their items and actions, as they are written.
use crate::expr::{Identifier, Literal, SurfaceExpr};
use crate::word::{BlockForm, Condition, TypeName};

/// What a variable holds at first, and the number of its first token.
#[derive(Drop)]
pub enum Initial {
    Value {
        value: Literal,
        token: usize,
    },
    List {
        values: Vec<ListedLiteral>,
        token: usize,
    },
}

/// A literal of a list, and the number of its first token.
#[derive(Drop)]
pub struct ListedLiteral {
    pub value: Literal,
    pub token: usize,
}

/// A variable that is declared.
#[derive(Drop)]
pub struct Variable {
    pub name: Identifier,
    /// Of an array.
    pub size: Option<u32>,
    pub initial: Option<Initial>,
}

/// An item of a block: a declaration, a condition or the priority.
#[derive(Drop)]
pub enum Item {
    Variables {
        of_type: TypeName,
        variables: Vec<Variable>,
    },
    Condition {
        condition: Condition,
        token: usize,
        test: SurfaceExpr,
    },
    Priority {
        token: usize,
        priority: u32,
    },
}

/// A variable, or an element of an array, that is written.
#[derive(Drop)]
pub struct Target {
    pub name: Identifier,
    pub index: Option<SurfaceExpr>,
}

/// A command with its arguments.
#[derive(Drop)]
pub struct Call {
    pub name: Identifier,
    pub args: Vec<SurfaceExpr>,
}

/// One value of an update.
#[derive(Drop)]
pub struct Pair {
    pub name: Identifier,
    pub value: SurfaceExpr,
}

/// A block in braces (PLEXIL reference manual, "Nodes").
#[derive(Drop)]
#[cycle(tree)]
pub struct Block {
    pub form: BlockForm,
    pub items: Vec<Item>,
    pub actions: Vec<Action>,
}

/// An action of a block, with its label where it has one.
#[derive(Drop)]
#[cycle(tree)]
pub struct Action {
    pub label: Option<Identifier>,
    pub body: Body,
}

/// A block under `if`, `elseif`, `else`, `while` or `for`, with its label where it has one.
#[derive(Drop)]
#[cycle(tree)]
pub struct Branch {
    pub label: Option<Identifier>,
    pub block: Block,
}

/// A test, and what is done where it holds.
#[derive(Drop)]
#[cycle(tree)]
pub struct Guarded {
    pub test: SurfaceExpr,
    pub branch: Branch,
}

/// What an action does.
#[derive(Drop)]
#[cycle(tree)]
pub enum Body {
    Block(Block),
    Assign {
        target: Target,
        value: SurfaceExpr,
    },
    /// A command whose answer is written.
    CallInto {
        target: Target,
        call: Call,
    },
    Call(Call),
    Update {
        /// Of the word `Update`.
        token: usize,
        pairs: Vec<Pair>,
    },
    If {
        first: Guarded,
        /// The `elseif`s.
        others: Vec<Guarded>,
        otherwise: Option<Branch>,
    },
    While(Guarded),
    For {
        variable: Identifier,
        first: i32,
        test: SurfaceExpr,
        step: SurfaceExpr,
        branch: Branch,
    },
}
