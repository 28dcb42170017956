// Single tokens.
ghost use Rattle.std.specs.Prelude.{◌≡◌, ◌+◌, ◌<◌, ◌≤◌, ◌↔◌, length, None, Some, IsSome, IsTrue, OnOk, IfOk, IfErr, MatchOption};
ghost use Rattle.px_syntax.specs.Form.{identifier, kind_at};
ghost use Rattle.px_syntax.specs.ExprGrammar.{binary_at, unary_at};
ghost use Rattle.px_expr_parse.specs.Verdict.{IsFound, IsMissing, HasSign, LacksSign};

use px_lex::{Sign, Token, TokenKind};
use px_syntax::{BinaryOperator, Identifier, ParseFault, UnaryOperator};
use std::alloc::Global;

/// What the token at a place is, if there is one.
pub fn kind_at(tokens: &[Token], at: usize) -> Option<&TokenKind>
    ensures { MatchOption result (kind_at tokens.now at ≡ None)
        (λ kind. (at < length tokens.now) × (kind_at tokens.now at ≡ Some kind.now)) }
{
    if at < tokens.len() {
        Some(&tokens[at].kind)
    } else {
        None
    }
}

/// The operator that the token at a place is between two operands.
pub(crate) fn binary_at(tokens: &[Token], at: usize) -> Option<BinaryOperator>
    ensures value { result ≡ binary_at tokens.now at }
    ensures inside { IsSome result → at < length tokens.now }
{
    BinaryOperator::of(kind_at(tokens, at)?)
}

/// The operator that the token at a place is before one operand.
pub(crate) fn unary_at(tokens: &[Token], at: usize) -> Option<UnaryOperator>
    ensures value { result ≡ unary_at tokens.now at }
    ensures inside { IsSome result → at < length tokens.now }
{
    UnaryOperator::of(kind_at(tokens, at)?)
}

/// Whether this sign stands at a place.
pub fn is_sign(tokens: &[Token], at: usize, sign: Sign) -> bool
    ensures answer { IsTrue result ↔ HasSign tokens.now at sign }
    ensures inside { IsTrue result → at < length tokens.now }
{
    match kind_at(tokens, at) {
        Some(TokenKind::Sign(other)) => *other == sign,
        _ => false,
    }
}

/// Makes sure that this sign stands at a place.
pub fn expect(tokens: &[Token], at: usize, sign: Sign) -> Result<(), ParseFault>
    requires { at ≤ length tokens.now }
    ensures ok { OnOk result ((at < length tokens.now) × HasSign tokens.now at sign) }
    ensures fault { IfErr result (λ fault. LacksSign tokens.now at sign fault) }
{
    if is_sign(tokens, at, sign) {
        Ok(())
    } else {
        Err(ParseFault::SyntaxFault { token: at })
    }
}

/// The name at a place.
pub fn name_at(alloc: Global, tokens: &[Token], at: usize) -> Result<Identifier, ParseFault>
    requires { at ≤ length tokens.now }
    ensures ok { IfOk result (λ name. IsFound identifier tokens.now at name (at + 1)) }
    ensures fault { IfErr result (λ fault. IsMissing identifier tokens.now at fault) }
{
    match kind_at(tokens, at) {
        Some(TokenKind::Identifier(name)) => Ok(Identifier {
            name: name.copy(alloc)?,
            token: at,
        }),
        _ => Err(ParseFault::SyntaxFault { token: at }),
    }
}
