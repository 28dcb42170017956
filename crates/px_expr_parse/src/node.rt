// Attributes of nodes.
ghost use Rattle.std.specs.Prelude.{◌≡◌, ◌+◌, ◌≤◌, ◌<◌, length, Some, IfOk, IfErr, MatchOption};
ghost use Rattle.px_lex.specs.declared.token.TokenKind.TheVariants as kinds;
ghost use Rattle.px_syntax.specs.declared.expr.Attribute.{Attribute as AttributeWord};
ghost use Rattle.px_syntax.specs.ExprGrammar.{attribute_word};
ghost use Rattle.px_syntax.specs.Form.{kind_at};
ghost use Rattle.px_expr_parse.specs.Tail.{attribute, named};
ghost use Rattle.px_expr_parse.specs.Verdict.{IsFound, IsMissing};

use crate::token::{expect, kind_at, name_at};
use px_lex::{Sign, Token, TokenKind};
use px_syntax::{Attribute, Identifier, ParseFault};
use std::alloc::Global;

/// The attribute that a name is.
fn attribute_of(name: &str) -> Option<Attribute>
    ensures { MatchOption result ((which : AttributeWord) → name.now ≡ attribute_word which → ⊥)
        (λ which. name.now ≡ attribute_word which) }
{
    match name {
        "state" => Some(Attribute::State),
        "outcome" => Some(Attribute::Outcome),
        "failure" => Some(Attribute::Failure),
        "command_handle" => Some(Attribute::CommandHandle),
        _ => None,
    }
}

/// The attribute whose word the token at a place is.
fn attribute_there(tokens: &[Token], at: usize) -> Option<Attribute>
    ensures { MatchOption result
        ((which : AttributeWord) → kind_at tokens.now at ≡ Some (kinds.Identifier (attribute_word which)) → ⊥)
        (λ which. (at < length tokens.now) × (kind_at tokens.now at ≡ Some (kinds.Identifier (attribute_word which)))) }
{
    match kind_at(tokens, at) {
        Some(TokenKind::Identifier(name)) => attribute_of(name.as_str()),
        _ => None,
    }
}

/// A dot and an attribute: two tokens.
pub(crate) fn attribute_at(tokens: &[Token], at: usize) -> Result<Attribute, ParseFault>
    requires { at ≤ length tokens.now }
    ensures ok { IfOk result (λ which. IsFound attribute tokens.now at which (at + 2)) }
    ensures fault { IfErr result (λ fault. IsMissing attribute tokens.now at fault) }
{
    expect(tokens, at, Sign::Dot)?;
    match attribute_there(tokens, at + 1) {
        Some(attribute) => Ok(attribute),
        None => Err(ParseFault::SyntaxFault { token: at + 1 }),
    }
}

/// "(" ID ")": three tokens.
pub(crate) fn name_in_parens(
    alloc: Global,
    tokens: &[Token],
    at: usize,
) -> Result<Identifier, ParseFault>
    requires { at ≤ length tokens.now }
    ensures ok { IfOk result (λ name. IsFound named tokens.now at name (at + 3)) }
    ensures fault { IfErr result (λ fault. IsMissing named tokens.now at fault) }
{
    expect(tokens, at, Sign::OpenParen)?;
    let name = name_at(alloc, tokens, at + 1)?;
    expect(tokens, at + 2, Sign::CloseParen)?;
    Ok(name)
}
