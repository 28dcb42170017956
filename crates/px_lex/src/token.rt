// Tokens and their places.
use crate::keyword::Keyword;
use crate::sign::Sign;
use px_value::{Name, Text};

/// What a token is.
#[derive(Drop, PartialEq, Eq)]
pub enum TokenKind {
    Identifier(Name),
    Keyword(Keyword),
    /// A number from 0 to 2147483647.
    Integer(i32),
    /// The content of a string, without its quotes and escapes.
    Text(Text),
    Sign(Sign),
}

/// A token, and the place of its first byte in the text.
#[derive(Drop, PartialEq, Eq)]
pub struct Token {
    pub kind: TokenKind,
    pub at: usize,
}
