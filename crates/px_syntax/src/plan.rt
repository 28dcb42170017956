// A whole plan as it is written.
use crate::block::Block;
use crate::expr::Identifier;
use crate::word::TypeName;

/// A parameter of a declared command or lookup.
#[derive(Drop)]
pub struct Parameter {
    pub of_type: TypeName,
    pub name: Option<Identifier>,
}

/// A command or a lookup that is declared before the root (PLEXIL reference manual, "Global Declarations").
#[derive(Drop)]
pub enum Declaration {
    Command {
        /// Of the value that the command returns, if it returns one.
        answer: Option<TypeName>,
        name: Identifier,
        parameters: Vec<Parameter>,
    },
    Lookup {
        answer: TypeName,
        name: Identifier,
        parameters: Vec<Parameter>,
    },
}

/// A plan as it is written (PLEXIL reference manual, "Overview").
#[derive(Drop)]
pub struct Surface {
    pub declarations: Vec<Declaration>,
    pub label: Option<Identifier>,
    pub root: Block,
}
