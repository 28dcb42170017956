// What is known of a plan that is explained: its text, its tokens and the names that it declares.
use crate::declared::Declared;
use crate::place::{Place, place_at};
use px_lex::{Keyword, Sign, Token, TokenKind};

/// A plan's text with its tokens and names.
#[derive(Clone, Copy)]
pub struct Seen<'a> {
    pub text: &'a str,
    pub tokens: &'a [Token],
    pub names: &'a [Declared<'a>],
}

impl<'a> Seen<'a> {
    /// The place of a token.
    pub fn place(&self, token: usize) -> Place<'a> {
        place_at(self.text, self.tokens, token)
    }
}

/// What stands at a token.
pub fn kind_at(tokens: &[Token], token: usize) -> Option<&TokenKind> {
    match tokens.get(token) {
        Some(token) => Some(&token.kind),
        None => None,
    }
}

/// The name at a token; empty where none is.
pub fn name_at(tokens: &[Token], token: usize) -> &str {
    match kind_at(tokens, token) {
        Some(TokenKind::Identifier(name)) => name.as_str(),
        _ => "",
    }
}

/// The sign at a token.
pub fn sign_at(tokens: &[Token], token: usize) -> Option<Sign> {
    match kind_at(tokens, token) {
        Some(TokenKind::Sign(sign)) => Some(*sign),
        _ => None,
    }
}

/// The keyword at a token.
pub fn keyword_at(tokens: &[Token], token: usize) -> Option<Keyword> {
    match kind_at(tokens, token) {
        Some(TokenKind::Keyword(keyword)) => Some(*keyword),
        _ => None,
    }
}
