// Words for types.
use px_check::Allowed;
use px_syntax::{TypeName, ValueType};

/// A value of this type.
pub fn a_value(of_type: ValueType) -> &'static str {
    match of_type {
        ValueType::Boolean => "a Boolean",
        ValueType::Integer => "an Integer",
        ValueType::String => "a String",
        ValueType::State => "the state of a node",
        ValueType::Outcome => "the outcome of a node",
        ValueType::Failure => "the failure of a node",
        ValueType::Handle => "the handle of a command",
        ValueType::Any => "a value",
    }
}

/// A value of what is allowed.
pub fn an_allowed(allowed: Allowed) -> &'static str {
    match allowed {
        Allowed::Only(of_type) => a_value(of_type),
        Allowed::Addends => "an Integer or a String",
        Allowed::Told => "a Boolean, an Integer or a String",
        Allowed::Every => "a value",
    }
}

/// A value of a declared type.
pub fn a_declared(of_type: TypeName) -> &'static str {
    match of_type {
        TypeName::Integer => "an Integer",
        TypeName::Boolean => "a Boolean",
        TypeName::String => "a String",
    }
}
