// The words of the grammar that have no spelling of their own in a tree.

/// The type of a variable, a parameter or an answer (PLEXIL reference manual, "Variables").
#[derive(Clone, Copy, PartialEq, Eq)]
pub enum TypeName {
    Integer,
    Boolean,
    String,
}

/// How the actions of a block run (PLEXIL reference manual, "Sequence", "Concurrence" and "Try").
#[derive(Clone, Copy, PartialEq, Eq)]
pub enum BlockForm {
    /// No word before the brace, and no `NodeList:` inside.
    Plain,
    /// No word before the brace, and `NodeList:` before the actions.
    NodeList,
    Sequence,
    UncheckedSequence,
    Concurrence,
    Try,
}

/// The conditions of a node (PLEXIL reference manual, "Node Conditions").
#[derive(Clone, Copy, PartialEq, Eq)]
pub enum Condition {
    Start,
    End,
    Exit,
    Skip,
    Repeat,
    Pre,
    Post,
    Invariant,
}

/// How a lookup asks for a state of the outside (PLEXIL reference manual, "Lookups").
#[derive(Clone, Copy, PartialEq, Eq)]
pub enum LookWord {
    Lookup,
    LookupNow,
    LookupOnChange,
}

/// The functions of one argument (PLEXIL reference manual, "Expressions").
#[derive(Clone, Copy, PartialEq, Eq)]
pub enum UnaryFunction {
    IsKnown,
    Abs,
    StrLen,
}

/// The functions of two arguments (PLEXIL reference manual, "Expressions").
#[derive(Clone, Copy, PartialEq, Eq)]
pub enum BinaryFunction {
    Min,
    Max,
}
