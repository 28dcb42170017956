// Where a plan can't go on.
use crate::place::{Place, place_at, place_of};
use px_lex::{Sign, Token, TokenKind};

/// The place of a token with which a plan can't go on, or of its end, and what stands round it.
#[derive(Clone, Copy)]
pub struct Cut<'a> {
    pub place: Place<'a>,
    /// The place of the token before.
    pub before: Place<'a>,
    /// At the end, the place of the innermost bracket that is open.
    pub open: Option<Place<'a>>,
}

impl<'a> Cut<'a> {
    /// The cut before a token; behind the last, at the end.
    pub fn at(text: &'a str, tokens: &[Token], token: usize) -> Cut<'a> {
        let open = if token < tokens.len() {
            None
        } else {
            open_bracket(text, tokens)
        };
        Cut {
            place: place_at(text, tokens, token),
            before: place_at(text, tokens, token.saturating_sub(1)),
            open,
        }
    }
}

// The last bracket that isn't closed.
fn open_bracket<'a>(text: &'a str, tokens: &[Token]) -> Option<Place<'a>> {
    let mut closed: usize = 0;
    for token in tokens.iter().rev() {
        if is_closing(token) {
            closed = closed.saturating_add(1);
        } else if is_opening(token) {
            if closed == 0 {
                return Some(place_of(text, token.at));
            }
            closed = closed.saturating_sub(1);
        }
    }
    None
}

/// Whether a token opens a bracket.
pub fn is_opening(token: &Token) -> bool {
    matches!(
        token.kind,
        TokenKind::Sign(Sign::OpenBrace | Sign::OpenParen | Sign::OpenBracket | Sign::OpenList)
    )
}

fn is_closing(token: &Token) -> bool {
    matches!(
        token.kind,
        TokenKind::Sign(Sign::CloseBrace | Sign::CloseParen | Sign::CloseBracket)
    )
}
