// The words and signs of the grammar.
ghost use Rattle.std.specs.Prelude.{◌≡◌, codes};
ghost use Rattle.px_syntax.specs.ExprGrammar.{attribute_word};
ghost use Rattle.px_print.specs.ExprLayout.{enumerated_text, look_text, unary_function_text, binary_function_text, unary_sign, binary_sign};
ghost use Rattle.px_print.specs.Texts.{◌then◌};
ghost use Rattle.px_print.specs.BlockLayout.{type_text, condition_text, form_text};

use px_syntax::{
    Attribute, BinaryFunction, BinaryOperator, BlockForm, Condition, Enumerated, LookWord,
    TypeName, UnaryFunction, UnaryOperator,
};

pub(crate) fn enumerated_word(value: Enumerated) -> &'static str
    ensures { result.now ≡ enumerated_text value }
{
    match value {
        Enumerated::State(state) => state.word(),
        Enumerated::Outcome(outcome) => outcome.word(),
        Enumerated::Failure(failure) => failure.word(),
        Enumerated::Handle(handle) => handle.word(),
    }
}

pub(crate) fn attribute_word(attribute: Attribute) -> &'static str
    ensures { result.now ≡ attribute_word attribute }
{
    match attribute {
        Attribute::State => "state",
        Attribute::Outcome => "outcome",
        Attribute::Failure => "failure",
        Attribute::CommandHandle => "command_handle",
    }
}

pub(crate) fn look_word(word: LookWord) -> &'static str
    ensures { result.now ≡ look_text word }
{
    match word {
        LookWord::Lookup => "Lookup",
        LookWord::LookupNow => "LookupNow",
        LookWord::LookupOnChange => "LookupOnChange",
    }
}

pub(crate) fn unary_function_word(function: UnaryFunction) -> &'static str
    ensures { result.now ≡ unary_function_text function }
{
    match function {
        UnaryFunction::IsKnown => "isKnown",
        UnaryFunction::Abs => "abs",
        UnaryFunction::StrLen => "strlen",
    }
}

pub(crate) fn binary_function_word(function: BinaryFunction) -> &'static str
    ensures { result.now ≡ binary_function_text function }
{
    match function {
        BinaryFunction::Min => "min",
        BinaryFunction::Max => "max",
    }
}

pub(crate) fn unary_sign(operator: UnaryOperator) -> &'static str
    ensures { result.now ≡ unary_sign operator }
{
    match operator {
        UnaryOperator::Not => "!",
        UnaryOperator::Negative => "-",
    }
}

/// The sign of an operator between its operands, with the blanks around it.
pub(crate) fn spaced_sign(operator: BinaryOperator) -> &'static str
    ensures { result.now ≡ (codes " " then binary_sign operator then codes " ") }
{
    match operator {
        BinaryOperator::Or => " || ",
        BinaryOperator::Xor => " XOR ",
        BinaryOperator::And => " && ",
        BinaryOperator::Equal => " == ",
        BinaryOperator::Differs => " != ",
        BinaryOperator::Less => " < ",
        BinaryOperator::AtMost => " <= ",
        BinaryOperator::Greater => " > ",
        BinaryOperator::AtLeast => " >= ",
        BinaryOperator::Plus => " + ",
        BinaryOperator::Minus => " - ",
        BinaryOperator::Times => " * ",
        BinaryOperator::Over => " / ",
        BinaryOperator::Rest => " % ",
    }
}

pub(crate) fn type_word(of_type: TypeName) -> &'static str
    ensures { result.now ≡ type_text of_type }
{
    match of_type {
        TypeName::Integer => "Integer",
        TypeName::Boolean => "Boolean",
        TypeName::String => "String",
    }
}

/// The short word of a condition.
pub(crate) fn condition_word(condition: Condition) -> &'static str
    ensures { result.now ≡ condition_text condition }
{
    match condition {
        Condition::Start => "Start",
        Condition::End => "End",
        Condition::Exit => "Exit",
        Condition::Skip => "Skip",
        Condition::Repeat => "Repeat",
        Condition::Pre => "Pre",
        Condition::Post => "Post",
        Condition::Invariant => "Invariant",
    }
}

/// What stands before the brace of a block, with a blank behind it, where it is a word.
pub(crate) fn form_word(form: BlockForm) -> &'static str
    ensures { result.now ≡ form_text form }
{
    match form {
        BlockForm::Plain | BlockForm::NodeList => "",
        BlockForm::Sequence => "Sequence ",
        BlockForm::UncheckedSequence => "UncheckedSequence ",
        BlockForm::Concurrence => "Concurrence ",
        BlockForm::Try => "Try ",
    }
}
