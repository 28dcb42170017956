// The signs, each with its spelling in one row of one table.
ghost use Rattle.std.specs.Prelude.{◌≡◌};
ghost use Rattle.px_lex.specs.Sign.{sign_of};

use crate::table::row_of;

/// A sign. Each variant stands for the spelling in its row of `SIGNS`.
#[derive(Clone, Copy, PartialEq, Eq)]
pub enum Sign {
    OpenBrace,
    CloseBrace,
    OpenParen,
    CloseParen,
    OpenBracket,
    CloseBracket,
    OpenList,
    Comma,
    Semicolon,
    Colon,
    Assign,
    Dot,
    OrOr,
    AndAnd,
    Bang,
    EqualEqual,
    NotEqual,
    Less,
    LessEqual,
    Greater,
    GreaterEqual,
    Plus,
    Minus,
    Star,
    Slash,
    Percent,
}

/// The spelling of each sign (PLEXIL reference manual).
pub const SIGNS: [(&[u8], Sign); 26] = [
    (b"{", Sign::OpenBrace),
    (b"}", Sign::CloseBrace),
    (b"(", Sign::OpenParen),
    (b")", Sign::CloseParen),
    (b"[", Sign::OpenBracket),
    (b"]", Sign::CloseBracket),
    (b"#(", Sign::OpenList),
    (b",", Sign::Comma),
    (b";", Sign::Semicolon),
    (b":", Sign::Colon),
    (b"=", Sign::Assign),
    (b".", Sign::Dot),
    (b"||", Sign::OrOr),
    (b"&&", Sign::AndAnd),
    (b"!", Sign::Bang),
    (b"==", Sign::EqualEqual),
    (b"!=", Sign::NotEqual),
    (b"<", Sign::Less),
    (b"<=", Sign::LessEqual),
    (b">", Sign::Greater),
    (b">=", Sign::GreaterEqual),
    (b"+", Sign::Plus),
    (b"-", Sign::Minus),
    (b"*", Sign::Star),
    (b"/", Sign::Slash),
    (b"%", Sign::Percent),
];

/// The sign with this spelling.
pub(crate) fn sign_of(spelling: &[u8]) -> Option<Sign>
    ensures { result ≡ sign_of spelling.now }
{
    row_of(&SIGNS, spelling)
}
