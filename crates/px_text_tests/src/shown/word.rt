// The words and signs of trees.
use px_syntax::{
    Attribute, BinaryFunction, BinaryOperator, BlockForm, Condition, Enumerated, LookWord,
    TypeName, UnaryFunction, UnaryOperator,
};

pub(super) fn type_word(of_type: TypeName) -> &'static str {
    match of_type {
        TypeName::Integer => "Integer",
        TypeName::Boolean => "Boolean",
        TypeName::String => "String",
    }
}

pub(super) fn form_word(form: BlockForm) -> &'static str {
    match form {
        BlockForm::Plain => "",
        BlockForm::NodeList => "NodeList",
        BlockForm::Sequence => "Sequence",
        BlockForm::UncheckedSequence => "UncheckedSequence",
        BlockForm::Concurrence => "Concurrence",
        BlockForm::Try => "Try",
    }
}

pub(super) fn condition_word(condition: Condition) -> &'static str {
    match condition {
        Condition::Start => "Start",
        Condition::End => "End",
        Condition::Exit => "Exit",
        Condition::Skip => "Skip",
        Condition::Repeat => "Repeat",
        Condition::Pre => "Pre",
        Condition::Post => "Post",
        Condition::Invariant => "Invariant",
    }
}

pub(super) fn enumerated_word(value: Enumerated) -> &'static str {
    match value {
        Enumerated::State(state) => state.word(),
        Enumerated::Outcome(outcome) => outcome.word(),
        Enumerated::Failure(failure) => failure.word(),
        Enumerated::Handle(handle) => handle.word(),
    }
}

pub(super) fn attribute_word(attribute: Attribute) -> &'static str {
    match attribute {
        Attribute::State => ".state",
        Attribute::Outcome => ".outcome",
        Attribute::Failure => ".failure",
        Attribute::CommandHandle => ".command_handle",
    }
}

pub(super) fn look_word(word: LookWord) -> &'static str {
    match word {
        LookWord::Lookup => "Lookup",
        LookWord::LookupNow => "LookupNow",
        LookWord::LookupOnChange => "LookupOnChange",
    }
}

pub(super) fn unary_word(function: UnaryFunction) -> &'static str {
    match function {
        UnaryFunction::IsKnown => "isKnown",
        UnaryFunction::Abs => "abs",
        UnaryFunction::StrLen => "strlen",
    }
}

pub(super) fn binary_word(function: BinaryFunction) -> &'static str {
    match function {
        BinaryFunction::Min => "min",
        BinaryFunction::Max => "max",
    }
}

/// The sign of an operator before one operand.
pub(super) fn unary_sign(operator: UnaryOperator) -> &'static str {
    match operator {
        UnaryOperator::Not => "(!",
        UnaryOperator::Negative => "(-",
    }
}

/// The sign of an operator between two operands.
pub(super) fn binary_sign(operator: BinaryOperator) -> &'static str {
    match operator {
        BinaryOperator::Or => "||",
        BinaryOperator::Xor => " XOR ",
        BinaryOperator::And => "&&",
        BinaryOperator::Equal => "==",
        BinaryOperator::Differs => "!=",
        BinaryOperator::Less => "<",
        BinaryOperator::AtMost => "<=",
        BinaryOperator::Greater => ">",
        BinaryOperator::AtLeast => ">=",
        BinaryOperator::Plus => "+",
        BinaryOperator::Minus => "-",
        BinaryOperator::Times => "*",
        BinaryOperator::Over => "/",
        BinaryOperator::Rest => "%",
    }
}
