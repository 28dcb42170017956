// The words, operators and functions of expressions, as the core plan has them.
ghost use Rattle.std.specs.Prelude.{◌≡◌, IfOk};
ghost use Rattle.px_scope.specs.Resolving.{binary_function_op, binary_op, enumerated_value, literal_value, look_word, unary_function_op, unary_op};

use px_core::{BinaryOp, LookWord, UnaryOp};
use px_syntax::{
    BinaryFunction, BinaryOperator, Enumerated, Literal, UnaryFunction, UnaryOperator,
};
use px_value::{ArithOp, CompareOp, NoMemory, Value};
use std::alloc::Global;

/// The value of a literal.
pub(crate) fn literal_value(alloc: Global, literal: &Literal) -> Result<Value, NoMemory>
    ensures { IfOk result (λ value. value ≡ literal_value literal.now) }
{
    Ok(match literal {
        Literal::Integer(number) => Value::Integer(*number),
        Literal::Boolean(truth) => Value::Boolean(*truth),
        Literal::Text(text) => Value::Text(text.copy(alloc)?),
    })
}

/// The value of the name of a state, an outcome, a failure or a handle.
pub(crate) fn enumerated_value(name: Enumerated) -> Value
    ensures { result ≡ enumerated_value name }
{
    match name {
        Enumerated::State(state) => Value::State(state),
        Enumerated::Outcome(outcome) => Value::Outcome(outcome),
        Enumerated::Failure(failure) => Value::Failure(failure),
        Enumerated::Handle(handle) => Value::Handle(handle),
    }
}

/// An operator between two operands.
pub(crate) fn binary_op(operator: BinaryOperator) -> BinaryOp
    ensures { result ≡ binary_op operator }
{
    match operator {
        BinaryOperator::Or => BinaryOp::Or,
        BinaryOperator::Xor => BinaryOp::Xor,
        BinaryOperator::And => BinaryOp::And,
        BinaryOperator::Equal => BinaryOp::Compare(CompareOp::Equal),
        BinaryOperator::Differs => BinaryOp::Compare(CompareOp::Differs),
        BinaryOperator::Less => BinaryOp::Compare(CompareOp::Less),
        BinaryOperator::AtMost => BinaryOp::Compare(CompareOp::AtMost),
        BinaryOperator::Greater => BinaryOp::Compare(CompareOp::Greater),
        BinaryOperator::AtLeast => BinaryOp::Compare(CompareOp::AtLeast),
        BinaryOperator::Plus => BinaryOp::Add,
        BinaryOperator::Minus => BinaryOp::Arith(ArithOp::Minus),
        BinaryOperator::Times => BinaryOp::Arith(ArithOp::Times),
        BinaryOperator::Over => BinaryOp::Arith(ArithOp::Over),
        BinaryOperator::Rest => BinaryOp::Arith(ArithOp::Rest),
    }
}

/// An operator before one operand.
pub(crate) fn unary_op(operator: UnaryOperator) -> UnaryOp
    ensures { result ≡ unary_op operator }
{
    match operator {
        UnaryOperator::Not => UnaryOp::Not,
        UnaryOperator::Negative => UnaryOp::Minus,
    }
}

/// A function of two arguments.
pub(crate) fn binary_function_op(function: BinaryFunction) -> BinaryOp
    ensures { result ≡ binary_function_op function }
{
    match function {
        BinaryFunction::Min => BinaryOp::Arith(ArithOp::Min),
        BinaryFunction::Max => BinaryOp::Arith(ArithOp::Max),
    }
}

/// A function of one argument.
pub(crate) fn unary_function_op(function: UnaryFunction) -> UnaryOp
    ensures { result ≡ unary_function_op function }
{
    match function {
        UnaryFunction::IsKnown => UnaryOp::IsKnown,
        UnaryFunction::Abs => UnaryOp::Abs,
        UnaryFunction::StrLen => UnaryOp::Length,
    }
}

/// How a lookup asks.
pub(crate) fn look_word(word: px_syntax::LookWord) -> LookWord
    ensures { result ≡ look_word word }
{
    match word {
        px_syntax::LookWord::Lookup => LookWord::Lookup,
        px_syntax::LookWord::LookupNow => LookWord::LookupNow,
        px_syntax::LookWord::LookupOnChange => LookWord::LookupOnChange,
    }
}
