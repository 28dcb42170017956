// The operators, with their spellings and levels as rows of one table.
ghost use Rattle.std.specs.Prelude.{◌≡◌};
ghost use Rattle.px_syntax.specs.Operator.{is_spelling, level_of, level_in, binary_of, binary_in, unary_of, unary_in};

use px_lex::{Keyword, Sign, TokenKind};

/// An operator between two operands (PLEXIL reference manual, "Expressions").
#[derive(Clone, Copy, PartialEq, Eq)]
pub enum BinaryOperator {
    Or,
    Xor,
    And,
    Equal,
    Differs,
    Less,
    AtMost,
    Greater,
    AtLeast,
    Plus,
    Minus,
    Times,
    Over,
    /// What is left of a division.
    Rest,
}

/// An operator before its one operand (PLEXIL reference manual, "Expressions").
#[derive(Clone, Copy, PartialEq, Eq)]
pub enum UnaryOperator {
    Not,
    Negative,
}

/// An operator of either sort.
#[derive(Clone, Copy, PartialEq, Eq)]
pub enum Operator {
    Binary(BinaryOperator),
    Unary(UnaryOperator),
}

/// What spells an operator.
#[derive(Clone, Copy, PartialEq, Eq)]
pub enum Spelling {
    Sign(Sign),
    Word(Keyword),
}

/// The level of expressions that are no operation: they bind tighter than each operator.
pub const PRIMARY_LEVEL: u8 = 9;

/// Each spelling of each operator with the operator's level, loosest first (PLEXIL reference manual, "Expressions").
/// Where an operator has two spellings, the first is the one that is printed.
pub const OPERATORS: [(Spelling, Operator, u8); 19] = [
    (
        Spelling::Sign(Sign::OrOr),
        Operator::Binary(BinaryOperator::Or),
        1,
    ),
    (
        Spelling::Word(Keyword::Or),
        Operator::Binary(BinaryOperator::Or),
        1,
    ),
    (
        Spelling::Word(Keyword::Xor),
        Operator::Binary(BinaryOperator::Xor),
        2,
    ),
    (
        Spelling::Sign(Sign::AndAnd),
        Operator::Binary(BinaryOperator::And),
        3,
    ),
    (
        Spelling::Word(Keyword::And),
        Operator::Binary(BinaryOperator::And),
        3,
    ),
    (
        Spelling::Sign(Sign::EqualEqual),
        Operator::Binary(BinaryOperator::Equal),
        4,
    ),
    (
        Spelling::Sign(Sign::NotEqual),
        Operator::Binary(BinaryOperator::Differs),
        4,
    ),
    (
        Spelling::Sign(Sign::Less),
        Operator::Binary(BinaryOperator::Less),
        5,
    ),
    (
        Spelling::Sign(Sign::LessEqual),
        Operator::Binary(BinaryOperator::AtMost),
        5,
    ),
    (
        Spelling::Sign(Sign::Greater),
        Operator::Binary(BinaryOperator::Greater),
        5,
    ),
    (
        Spelling::Sign(Sign::GreaterEqual),
        Operator::Binary(BinaryOperator::AtLeast),
        5,
    ),
    (
        Spelling::Sign(Sign::Plus),
        Operator::Binary(BinaryOperator::Plus),
        6,
    ),
    (
        Spelling::Sign(Sign::Minus),
        Operator::Binary(BinaryOperator::Minus),
        6,
    ),
    (
        Spelling::Sign(Sign::Star),
        Operator::Binary(BinaryOperator::Times),
        7,
    ),
    (
        Spelling::Sign(Sign::Slash),
        Operator::Binary(BinaryOperator::Over),
        7,
    ),
    (
        Spelling::Sign(Sign::Percent),
        Operator::Binary(BinaryOperator::Rest),
        7,
    ),
    (
        Spelling::Sign(Sign::Bang),
        Operator::Unary(UnaryOperator::Not),
        8,
    ),
    (
        Spelling::Word(Keyword::Not),
        Operator::Unary(UnaryOperator::Not),
        8,
    ),
    (
        Spelling::Sign(Sign::Minus),
        Operator::Unary(UnaryOperator::Negative),
        8,
    ),
];

type Row = (Spelling, Operator, u8);

impl Spelling {
    /// Whether a token is spelled like this.
    pub fn is(self, kind: &TokenKind) -> bool
        ensures { result ≡ is_spelling self kind.now }
    {
        match (self, kind) {
            (Spelling::Sign(sign), TokenKind::Sign(other)) => sign == *other,
            (Spelling::Word(word), TokenKind::Keyword(other)) => word == *other,
            _ => false,
        }
    }
}

impl Operator {
    /// How tight the operator binds: from 1, the loosest, to 8.
    #[tactic(auto, unfolding(crate::specs::Operator::level_of))]
    pub fn level(self) -> u8
        ensures { result ≡ level_of self }
    {
        level_in(&OPERATORS, self)
    }
}

impl BinaryOperator {
    /// The operator that a token is between two operands.
    #[tactic(auto, unfolding(crate::specs::Operator::binary_of))]
    pub fn of(kind: &TokenKind) -> Option<BinaryOperator>
        ensures { result ≡ binary_of kind.now }
    {
        binary_in(&OPERATORS, kind)
    }
}

impl UnaryOperator {
    /// The operator that a token is before one operand.
    #[tactic(auto, unfolding(crate::specs::Operator::unary_of))]
    pub fn of(kind: &TokenKind) -> Option<UnaryOperator>
        ensures { result ≡ unary_of kind.now }
    {
        unary_in(&OPERATORS, kind)
    }
}

fn level_in(mut rows: &[Row], operator: Operator) -> u8
    ensures { result ≡ level_in rows.entry.now operator }
{
    while let [row, rest @ ..] = rows {
        if row.1 == operator {
            return row.2;
        }
        rows = rest;
    }
    0
}

fn binary_in(mut rows: &[Row], kind: &TokenKind) -> Option<BinaryOperator>
    ensures { result ≡ binary_in rows.entry.now kind.now }
{
    while let [row, rest @ ..] = rows {
        if let Operator::Binary(operator) = row.1 {
            if row.0.is(kind) {
                return Some(operator);
            }
        }
        rows = rest;
    }
    None
}

fn unary_in(mut rows: &[Row], kind: &TokenKind) -> Option<UnaryOperator>
    ensures { result ≡ unary_in rows.entry.now kind.now }
{
    while let [row, rest @ ..] = rows {
        if let Operator::Unary(operator) = row.1 {
            if row.0.is(kind) {
                return Some(operator);
            }
        }
        rows = rest;
    }
    None
}
