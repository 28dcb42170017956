// The words and signs of operations and lookups.
use px_core::{BinaryOp, LookWord, UnaryOp};
use px_value::{ArithOp, CompareOp};

pub(super) fn look_word(word: LookWord) -> &'static str {
    match word {
        LookWord::Lookup => "Lookup",
        LookWord::LookupNow => "LookupNow",
        LookWord::LookupOnChange => "LookupOnChange",
    }
}

/// What stands before an operand.
pub(super) fn before_one(op: UnaryOp) -> &'static str {
    match op {
        UnaryOp::Not => "!",
        UnaryOp::Minus => "-(",
        UnaryOp::IsKnown => "isKnown(",
        UnaryOp::Abs => "abs(",
        UnaryOp::Length => "strlen(",
    }
}

/// What stands behind it.
pub(super) fn behind_one(op: UnaryOp) -> &'static str {
    match op {
        UnaryOp::Not => "",
        UnaryOp::Minus | UnaryOp::IsKnown | UnaryOp::Abs | UnaryOp::Length => ")",
    }
}

/// What stands before two operands.
pub(super) fn before_two(op: BinaryOp) -> &'static str {
    match op {
        BinaryOp::Arith(ArithOp::Min) => "min(",
        BinaryOp::Arith(ArithOp::Max) => "max(",
        _ => "(",
    }
}

/// What stands between them.
pub(super) fn between(op: BinaryOp) -> &'static str {
    match op {
        BinaryOp::And => " && ",
        BinaryOp::Or => " || ",
        BinaryOp::Xor => " XOR ",
        BinaryOp::Compare(comparison) => comparison_sign(comparison),
        BinaryOp::Add => " + ",
        BinaryOp::Arith(operation) => arithmetic_sign(operation),
    }
}

fn comparison_sign(comparison: CompareOp) -> &'static str {
    match comparison {
        CompareOp::Equal => " == ",
        CompareOp::Differs => " != ",
        CompareOp::Less => " < ",
        CompareOp::AtMost => " <= ",
        CompareOp::Greater => " > ",
        CompareOp::AtLeast => " >= ",
    }
}

fn arithmetic_sign(operation: ArithOp) -> &'static str {
    match operation {
        ArithOp::Minus => " - ",
        ArithOp::Times => " * ",
        ArithOp::Over => " / ",
        ArithOp::Rest => " % ",
        ArithOp::Min | ArithOp::Max => ", ",
    }
}
