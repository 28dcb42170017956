// Expressions that are no operation.
ghost use Rattle.std.specs.Prelude.{◌≡◌, ◌+◌, ◌≤◌, ◌<◌, length, Some, None, IfOk, IfErr, MatchOption};
ghost use Rattle.px_syntax.specs.Expr.{term_of};
ghost use Rattle.px_syntax.specs.ExprGrammar.{literal_kind, unary_at};
ghost use Rattle.px_syntax.specs.Form.{kind_at};
ghost use Rattle.px_syntax.specs.declared.expr.Literal.{Literal as LiteralValue};
ghost use Rattle.px_expr_parse.specs.Opening.{Begins};
ghost use Rattle.px_expr_parse.specs.Verdict.{IsRead, IsRefused};

use crate::argument::closed;
use crate::build;
use crate::lookup::look_rest;
use crate::node::{attribute_at, name_in_parens};
use crate::opening::Opening;
use crate::operation::operation;
use crate::token::{expect, is_sign, kind_at, name_at};
use px_lex::{Keyword, Sign, Token, TokenKind};
use px_syntax::{
    BinaryFunction, Literal, LookWord, NodeReference, ParseFault, SurfaceExpr, UnaryFunction,
};
use px_value::NoMemory;
use std::alloc::Global;

/// An expression that is no operation, or one in parentheses.
#[cycle(expression)]
pub(crate) fn primary(
    alloc: Global,
    tokens: &[Token],
    from: usize,
) -> Result<(SurfaceExpr, usize), ParseFault>
    requires place { from ≤ length tokens.now }
    requires no_operator { unary_at tokens.now from ≡ None }
    ensures ok { IfOk result (λ read. IsRead 8 tokens.now from (term_of read.0) read.1) }
    ensures fault { IfErr result (λ fault. IsRefused 8 tokens.now from fault) }
{
    let Some(kind) = kind_at(tokens, from) else {
        return Err(ParseFault::SyntaxFault { token: from });
    };
    match Opening::of(kind) {
        Opening::Paren => closed(alloc, tokens, from + 1, Sign::CloseParen),
        Opening::Literal => literal(alloc, tokens, from, kind),
        Opening::Enumerated(value) => Ok((build::enumerated(value, from), from + 1)),
        Opening::Name => named(alloc, tokens, from),
        Opening::SelfNode => own(tokens, from),
        Opening::Parent => parent(tokens, from),
        Opening::Sibling => sibling(alloc, tokens, from),
        Opening::Child => child(alloc, tokens, from),
        Opening::Look(word) => look(alloc, tokens, from, word),
        Opening::UnaryCall(function) => unary_call(alloc, tokens, from, function),
        Opening::BinaryCall(function) => binary_call(alloc, tokens, from, function),
        Opening::Nothing => Err(ParseFault::SyntaxFault { token: from }),
    }
}

/// The literal that a token is by itself, if it is one.
pub fn literal_of(alloc: Global, kind: &TokenKind) -> Result<Option<Literal>, NoMemory>
    ensures { IfOk result (λ found. MatchOption found
        ((value : LiteralValue) → kind.now ≡ literal_kind value → ⊥)
        (λ value. kind.now ≡ literal_kind value)) }
{
    Ok(match kind {
        TokenKind::Integer(value) => Some(Literal::Integer(*value)),
        TokenKind::Text(content) => Some(Literal::Text(content.copy(alloc)?)),
        TokenKind::Keyword(Keyword::True) => Some(Literal::Boolean(true)),
        TokenKind::Keyword(Keyword::False) => Some(Literal::Boolean(false)),
        _ => None,
    })
}

/// INT, STR, "true" or "false"
fn literal(
    alloc: Global,
    tokens: &[Token],
    from: usize,
    kind: &TokenKind,
) -> Result<(SurfaceExpr, usize), ParseFault>
    requires place { from < length tokens.now }
    requires token { kind_at tokens.now from ≡ Some kind.now }
    requires begins { Begins tokens.now from Opening.Literal }
    ensures ok { IfOk result (λ read. IsRead 8 tokens.now from (term_of read.0) read.1) }
    ensures fault { IfErr result (λ fault. IsRefused 8 tokens.now from fault) }
{
    match literal_of(alloc, kind)? {
        Some(value) => Ok((build::literal(value, from), from + 1)),
        None => unreachable!(),
    }
}

/// ID [ "[" expression "]" ], or ID "." attribute
#[cycle(expression)]
fn named(alloc: Global, tokens: &[Token], from: usize) -> Result<(SurfaceExpr, usize), ParseFault>
    requires place { from ≤ length tokens.now }
    requires begins { Begins tokens.now from Opening.Name }
    ensures ok { IfOk result (λ read. IsRead 8 tokens.now from (term_of read.0) read.1) }
    ensures fault { IfErr result (λ fault. IsRefused 8 tokens.now from fault) }
{
    let name = name_at(alloc, tokens, from)?;
    if is_sign(tokens, from + 1, Sign::OpenBracket) {
        let (index, end) = closed(alloc, tokens, from + 2, Sign::CloseBracket)?;
        return Ok((build::element(alloc, name, index)?, end));
    }
    if is_sign(tokens, from + 1, Sign::Dot) {
        let attribute = attribute_at(tokens, from + 1)?;
        let node = NodeReference::Named(name);
        return Ok((build::attribute(node, attribute), from + 3));
    }
    Ok((build::variable(name), from + 1))
}

/// "Self" "." attribute
fn own(tokens: &[Token], from: usize) -> Result<(SurfaceExpr, usize), ParseFault>
    requires place { from < length tokens.now }
    requires begins { Begins tokens.now from Opening.SelfNode }
    ensures ok { IfOk result (λ read. IsRead 8 tokens.now from (term_of read.0) read.1) }
    ensures fault { IfErr result (λ fault. IsRefused 8 tokens.now from fault) }
{
    let attribute = attribute_at(tokens, from + 1)?;
    let node = NodeReference::SelfNode(from);
    Ok((build::attribute(node, attribute), from + 3))
}

/// "Parent" "." attribute
fn parent(tokens: &[Token], from: usize) -> Result<(SurfaceExpr, usize), ParseFault>
    requires place { from < length tokens.now }
    requires begins { Begins tokens.now from Opening.Parent }
    ensures ok { IfOk result (λ read. IsRead 8 tokens.now from (term_of read.0) read.1) }
    ensures fault { IfErr result (λ fault. IsRefused 8 tokens.now from fault) }
{
    let attribute = attribute_at(tokens, from + 1)?;
    let node = NodeReference::Parent(from);
    Ok((build::attribute(node, attribute), from + 3))
}

/// "Sibling" "(" ID ")" "." attribute
fn sibling(alloc: Global, tokens: &[Token], from: usize) -> Result<(SurfaceExpr, usize), ParseFault>
    requires place { from < length tokens.now }
    requires begins { Begins tokens.now from Opening.Sibling }
    ensures ok { IfOk result (λ read. IsRead 8 tokens.now from (term_of read.0) read.1) }
    ensures fault { IfErr result (λ fault. IsRefused 8 tokens.now from fault) }
{
    let name = name_in_parens(alloc, tokens, from + 1)?;
    let attribute = attribute_at(tokens, from + 4)?;
    let node = NodeReference::Sibling(from, name);
    Ok((build::attribute(node, attribute), from + 6))
}

/// "Child" "(" ID ")" "." attribute
fn child(alloc: Global, tokens: &[Token], from: usize) -> Result<(SurfaceExpr, usize), ParseFault>
    requires place { from < length tokens.now }
    requires begins { Begins tokens.now from Opening.Child }
    ensures ok { IfOk result (λ read. IsRead 8 tokens.now from (term_of read.0) read.1) }
    ensures fault { IfErr result (λ fault. IsRefused 8 tokens.now from fault) }
{
    let name = name_in_parens(alloc, tokens, from + 1)?;
    let attribute = attribute_at(tokens, from + 4)?;
    let node = NodeReference::Child(from, name);
    Ok((build::attribute(node, attribute), from + 6))
}

/// look "(" ID [ "(" [ expression { "," expression } ] ")" ] [ "," INT ] ")", the INT of LookupOnChange alone
#[cycle(expression)]
fn look(
    alloc: Global,
    tokens: &[Token],
    from: usize,
    word: LookWord,
) -> Result<(SurfaceExpr, usize), ParseFault>
    requires place { from < length tokens.now }
    requires begins { Begins tokens.now from (Opening.Look word) }
    ensures ok { IfOk result (λ read. IsRead 8 tokens.now from (term_of read.0) read.1) }
    ensures fault { IfErr result (λ fault. IsRefused 8 tokens.now from fault) }
{
    expect(tokens, from + 1, Sign::OpenParen)?;
    let name = name_at(alloc, tokens, from + 2)?;
    let (args, tolerance, end) = look_rest(alloc, tokens, from + 3, word)?;
    Ok((build::look(word, from, name, args, tolerance), end))
}

/// function "(" expression ")"
#[cycle(expression)]
fn unary_call(
    alloc: Global,
    tokens: &[Token],
    from: usize,
    function: UnaryFunction,
) -> Result<(SurfaceExpr, usize), ParseFault>
    requires place { from < length tokens.now }
    requires begins { Begins tokens.now from (Opening.UnaryCall function) }
    ensures ok { IfOk result (λ read. IsRead 8 tokens.now from (term_of read.0) read.1) }
    ensures fault { IfErr result (λ fault. IsRefused 8 tokens.now from fault) }
{
    expect(tokens, from + 1, Sign::OpenParen)?;
    let (argument, end) = closed(alloc, tokens, from + 2, Sign::CloseParen)?;
    Ok((build::unary_call(alloc, function, from, argument)?, end))
}

/// function "(" expression "," expression ")"
#[cycle(expression)]
fn binary_call(
    alloc: Global,
    tokens: &[Token],
    from: usize,
    function: BinaryFunction,
) -> Result<(SurfaceExpr, usize), ParseFault>
    requires place { from < length tokens.now }
    requires begins { Begins tokens.now from (Opening.BinaryCall function) }
    ensures ok { IfOk result (λ read. IsRead 8 tokens.now from (term_of read.0) read.1) }
    ensures fault { IfErr result (λ fault. IsRefused 8 tokens.now from fault) }
{
    expect(tokens, from + 1, Sign::OpenParen)?;
    let (first, middle) = operation(alloc, tokens, from + 2, 0)?;
    expect(tokens, middle, Sign::Comma)?;
    let (second, end) = closed(alloc, tokens, middle + 1, Sign::CloseParen)?;
    let tree = build::binary_call(alloc, function, from, first, second)?;
    Ok((tree, end))
}
