// Tokens that are too deep, found in one walk.
ghost use Rattle.std.specs.Prelude.{◌≡◌, ◌≤◌, [], false, MatchOption};
ghost use Rattle.px_syntax.specs.Depth.{ends_statement, is_closing, is_list_opening, is_minus, is_opening, is_operator, too_deep};
ghost use Rattle.px_plan_parse.specs.Verdict.{IsFirstTooDeep};
ghost use Rattle.px_plan_parse.specs.Walk.{counts, is_deep, walk_behind};

use px_lex::{Sign, Token, TokenKind};
use px_syntax::{BinaryOperator, UnaryOperator};

/// How many brackets may be open before one that opens, and how many operators may stand before one of a statement.
const LIMIT: usize = 64;

fn is_list_opening(kind: &TokenKind) -> bool
    ensures { result ≡ is_list_opening kind.now }
{
    matches!(kind, TokenKind::Sign(Sign::OpenList))
}

fn is_opening(kind: &TokenKind) -> bool
    ensures { result ≡ is_opening kind.now }
{
    match kind {
        TokenKind::Sign(Sign::OpenBrace) => true,
        TokenKind::Sign(Sign::OpenParen) => true,
        TokenKind::Sign(Sign::OpenBracket) => true,
        TokenKind::Sign(Sign::OpenList) => true,
        _ => false,
    }
}

fn is_closing(kind: &TokenKind) -> bool
    ensures { result ≡ is_closing kind.now }
{
    match kind {
        TokenKind::Sign(Sign::CloseBrace) => true,
        TokenKind::Sign(Sign::CloseParen) => true,
        TokenKind::Sign(Sign::CloseBracket) => true,
        _ => false,
    }
}

fn ends_statement(kind: &TokenKind) -> bool
    ensures { result ≡ ends_statement kind.now }
{
    match kind {
        TokenKind::Sign(Sign::Semicolon) => true,
        TokenKind::Sign(Sign::OpenBrace) => true,
        TokenKind::Sign(Sign::CloseBrace) => true,
        _ => false,
    }
}

fn is_minus(kind: &TokenKind) -> bool
    ensures { result ≡ is_minus kind.now }
{
    matches!(kind, TokenKind::Sign(Sign::Minus))
}

fn is_operator(kind: &TokenKind) -> bool
    ensures { result ≡ is_operator kind.now }
{
    BinaryOperator::of(kind).is_some() || UnaryOperator::of(kind).is_some()
}

/// What is open before a token.
#[derive(Clone, Copy, PartialEq, Eq)]
struct Walk {
    /// Brackets.
    brackets: usize,
    /// Of these the outermost `#(` and those inside it.
    in_list: usize,
    /// The operators of the statement.
    operators: usize,
}

impl Walk {
    /// Whether a token is an operator here: a minus inside a list belongs to its number.
    fn counts(self, kind: &TokenKind) -> bool
        ensures { result ≡ counts self kind.now }
    {
        is_operator(kind) && !(is_minus(kind) && self.in_list > 0)
    }

    /// Whether a token is too deep here.
    fn is_too_deep(self, kind: &TokenKind) -> bool
        ensures { result ≡ is_deep self kind.now }
    {
        is_opening(kind) && self.brackets >= LIMIT || self.counts(kind) && self.operators >= LIMIT
    }

    /// Behind a token that is not too deep.
    fn behind(self, kind: &TokenKind) -> Walk
        requires within { self.in_list ≤ self.brackets }
        requires shallow { is_deep self kind.now ≡ false }
        ensures { result ≡ walk_behind self kind.now }
    {
        let mut brackets = self.brackets;
        let mut in_list = self.in_list;
        if is_opening(kind) {
            brackets += 1;
            if in_list > 0 || is_list_opening(kind) {
                in_list += 1;
            }
        } else if is_closing(kind) {
            brackets = brackets.saturating_sub(1);
            in_list = in_list.saturating_sub(1);
        }
        let mut operators = self.operators;
        if ends_statement(kind) {
            operators = 0;
        } else if self.counts(kind) {
            operators += 1;
        }
        Walk {
            brackets,
            in_list,
            operators,
        }
    }
}

/// The first token that is too deep: an opening bracket before which 64 are open, or the 65th operator of a statement. None
/// exactly where there is none, which `parse_expr` asks for.
pub fn first_too_deep(tokens: &[Token]) -> Option<usize>
    ensures { MatchOption result (too_deep tokens.now ≡ []) (λ token. IsFirstTooDeep tokens.now token) }
{
    let mut walk = Walk {
        brackets: 0,
        in_list: 0,
        operators: 0,
    };
    for at in 0..tokens.len() {
        let kind = &tokens[at].kind;
        if walk.is_too_deep(kind) {
            return Some(at);
        }
        walk = walk.behind(kind);
    }
    None
}
