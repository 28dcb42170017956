// Which types places allow, and what operators and functions take and give.
ghost use Rattle.std.specs.Prelude.{◌≡◌, ◌&&◌};
ghost use Rattle.px_syntax.specs.ValueType.{named_type, literal_type, enumerated_type, attribute_type, fits, differ, sum_type};
ghost use Rattle.px_syntax.specs.ValueType.{binary_signature, binary_function_signature, unary_signature, unary_function_signature};
ghost use Rattle.px_syntax.specs.ExprFaults.{any_unless_allowed, given_by};
ghost use Rattle.px_check.specs.Types.{types_of, signature_data, unary_signature_data};

use px_syntax::{
    Attribute, BinaryFunction, BinaryOperator, Enumerated, Literal, TypeName, UnaryFunction,
    UnaryOperator, ValueType,
};

/// Which types a place allows. Any fits everywhere.
#[derive(Clone, Copy)]
pub enum Allowed {
    /// This one; each where it is Any.
    Only(ValueType),
    /// What can be added: Integers and Strings.
    Addends,
    /// What can be told: Booleans, Integers and Strings.
    Told,
    Every,
}

impl Allowed {
    /// Whether a value of this type may stand there.
    pub fn fits(self, given: ValueType) -> bool
        ensures { result ≡ fits (types_of self) given }
    {
        match self {
            Allowed::Only(of_type) => {
                given == of_type || given == ValueType::Any || of_type == ValueType::Any
            }
            Allowed::Addends => matches!(
                given,
                ValueType::Integer | ValueType::String | ValueType::Any
            ),
            Allowed::Told => matches!(
                given,
                ValueType::Boolean | ValueType::Integer | ValueType::String | ValueType::Any
            ),
            Allowed::Every => true,
        }
    }
}

/// What an operation of two operands gives.
#[derive(Clone, Copy)]
pub enum Gives {
    Always(ValueType),
    /// What the left operand is, or the right one where the left one is Any.
    Sum,
}

/// What each of two operands may be, whether both have to be of one type, and what is given.
#[derive(Clone, Copy)]
pub struct Signature {
    pub takes: Allowed,
    pub alike: bool,
    pub gives: Gives,
}

/// What the one operand may be, and what is given.
#[derive(Clone, Copy)]
pub struct UnarySignature {
    pub takes: Allowed,
    pub gives: ValueType,
}

const LOGIC: Signature = Signature {
    takes: Allowed::Only(ValueType::Boolean),
    alike: false,
    gives: Gives::Always(ValueType::Boolean),
};

const EQUALITY: Signature = Signature {
    takes: Allowed::Every,
    alike: true,
    gives: Gives::Always(ValueType::Boolean),
};

const ORDER: Signature = Signature {
    takes: Allowed::Only(ValueType::Integer),
    alike: false,
    gives: Gives::Always(ValueType::Boolean),
};

const ADDITION: Signature = Signature {
    takes: Allowed::Addends,
    alike: true,
    gives: Gives::Sum,
};

const ARITHMETIC: Signature = Signature {
    takes: Allowed::Only(ValueType::Integer),
    alike: false,
    gives: Gives::Always(ValueType::Integer),
};

/// Of an operator between two operands (PLEXIL reference manual, "Expressions").
pub fn binary_signature(operator: BinaryOperator) -> Signature
    ensures { signature_data result ≡ binary_signature operator }
{
    match operator {
        BinaryOperator::Or | BinaryOperator::Xor | BinaryOperator::And => LOGIC,
        BinaryOperator::Equal | BinaryOperator::Differs => EQUALITY,
        BinaryOperator::Less
        | BinaryOperator::AtMost
        | BinaryOperator::Greater
        | BinaryOperator::AtLeast => ORDER,
        BinaryOperator::Plus => ADDITION,
        BinaryOperator::Minus
        | BinaryOperator::Times
        | BinaryOperator::Over
        | BinaryOperator::Rest => ARITHMETIC,
    }
}

/// Of a function of two arguments (PLEXIL reference manual, "Expressions").
pub fn binary_function_signature(function: BinaryFunction) -> Signature
    ensures { signature_data result ≡ binary_function_signature function }
{
    match function {
        BinaryFunction::Min | BinaryFunction::Max => ARITHMETIC,
    }
}

/// Of an operator before its operand (PLEXIL reference manual, "Expressions").
pub fn unary_signature(operator: UnaryOperator) -> UnarySignature
    ensures { unary_signature_data result ≡ unary_signature operator }
{
    let of_type = match operator {
        UnaryOperator::Not => ValueType::Boolean,
        UnaryOperator::Negative => ValueType::Integer,
    };
    UnarySignature {
        takes: Allowed::Only(of_type),
        gives: of_type,
    }
}

/// Of a function of one argument (PLEXIL reference manual, "Expressions").
pub fn unary_function_signature(function: UnaryFunction) -> UnarySignature
    ensures { unary_signature_data result ≡ unary_function_signature function }
{
    match function {
        UnaryFunction::IsKnown => UnarySignature {
            takes: Allowed::Every,
            gives: ValueType::Boolean,
        },
        UnaryFunction::Abs => UnarySignature {
            takes: Allowed::Only(ValueType::Integer),
            gives: ValueType::Integer,
        },
        UnaryFunction::StrLen => UnarySignature {
            takes: Allowed::Only(ValueType::String),
            gives: ValueType::Integer,
        },
    }
}

fn sum_type(left: ValueType, right: ValueType) -> ValueType
    ensures { result ≡ sum_type left right }
{
    match left {
        ValueType::Any => right,
        known => known,
    }
}

// An operand that is not allowed counts as Any.
fn any_unless_allowed(allowed: Allowed, given: ValueType) -> ValueType
    ensures { result ≡ any_unless_allowed (types_of allowed) given }
{
    if allowed.fits(given) {
        given
    } else {
        ValueType::Any
    }
}

impl Signature {
    /// Whether two operands differ in type that have to be of one type and are each allowed.
    pub fn differ(self, left: ValueType, right: ValueType) -> bool
        ensures { result ≡ (self.alike && differ (any_unless_allowed (types_of self.takes) left)
            (any_unless_allowed (types_of self.takes) right)) }
    {
        let left = any_unless_allowed(self.takes, left);
        let right = any_unless_allowed(self.takes, right);
        self.alike && !Allowed::Only(left).fits(right)
    }

    /// What operands of these types give.
    pub fn result(self, left: ValueType, right: ValueType) -> ValueType
        ensures { result ≡ given_by (signature_data self) left right }
    {
        match self.gives {
            Gives::Always(of_type) => of_type,
            Gives::Sum => sum_type(
                any_unless_allowed(self.takes, left),
                any_unless_allowed(self.takes, right),
            ),
        }
    }
}

/// The type that a declaration names.
pub fn named_type(of_type: TypeName) -> ValueType
    ensures { result ≡ named_type of_type }
{
    match of_type {
        TypeName::Integer => ValueType::Integer,
        TypeName::Boolean => ValueType::Boolean,
        TypeName::String => ValueType::String,
    }
}

/// The type of a literal.
pub fn literal_type(value: &Literal) -> ValueType
    ensures { result ≡ literal_type value.now }
{
    match value {
        Literal::Integer(_) => ValueType::Integer,
        Literal::Boolean(_) => ValueType::Boolean,
        Literal::Text(_) => ValueType::String,
    }
}

/// The type of the name of a state, an outcome, a failure or a handle.
pub fn enumerated_type(value: Enumerated) -> ValueType
    ensures { result ≡ enumerated_type value }
{
    match value {
        Enumerated::State(_) => ValueType::State,
        Enumerated::Outcome(_) => ValueType::Outcome,
        Enumerated::Failure(_) => ValueType::Failure,
        Enumerated::Handle(_) => ValueType::Handle,
    }
}

/// The type of what is read of a node.
pub fn attribute_type(attribute: Attribute) -> ValueType
    ensures { result ≡ attribute_type attribute }
{
    match attribute {
        Attribute::State => ValueType::State,
        Attribute::Outcome => ValueType::Outcome,
        Attribute::Failure => ValueType::Failure,
        Attribute::CommandHandle => ValueType::Handle,
    }
}
