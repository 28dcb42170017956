// The types of expressions.

/// The type of an expression, as far as the text tells it (PLEXIL reference manual, "Expressions").
#[derive(Clone, Copy, PartialEq, Eq)]
pub enum ValueType {
    Boolean,
    Integer,
    String,
    State,
    Outcome,
    Failure,
    Handle,
    /// Of what isn't declared, and of what is at fault. It fits everywhere.
    Any,
}
