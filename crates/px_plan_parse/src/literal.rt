// Literals, and what variables hold at first.
ghost use Rattle.std.specs.Prelude.{◌≡◌, ◌+◌, ◌≤◌, ◌<◌, length, map, option_map, IfOk, IfErr};
ghost use Rattle.px_syntax.specs.Block.{initial_data};
ghost use Rattle.px_syntax.specs.BlockGrammar.{first_value, initial, listed, literal};
ghost use Rattle.px_syntax.specs.ExprGrammar.{literal_kind};
ghost use Rattle.px_plan_parse.specs.Part.{Anything, IsLacking, IsPart};
ghost use Rattle.px_plan_parse.specs.Tail.{listed_values, NoLiteral, Unless, VariableEnded};
ghost use Rattle.px_lex.specs.declared.sign.Sign.TheVariants as signs;

use crate::build::{first_list, first_literal};
use crate::number::number_at;
use px_expr_parse::literal_of;
use px_expr_parse::token::{is_sign, kind_at};
use px_lex::{Sign, Token, TokenKind};
use px_syntax::{Initial, ListedLiteral, Literal, ParseFault};
use std::alloc::Global;

/// A literal, and the place behind it.
pub(crate) fn literal_at(
    alloc: Global,
    tokens: &[Token],
    from: usize,
) -> Result<(Literal, usize), ParseFault>
    requires { from ≤ length tokens.now }
    ensures ok { IfOk result (λ read. IsPart literal Anything tokens.now from read.0 read.1) }
    ensures onward { IfOk result (λ read. from < read.1) }
    ensures fault { IfErr result (λ fault. IsLacking literal Anything tokens.now from fault) }
{
    if is_sign(tokens, from, Sign::Minus) {
        let size = number_at(tokens, from + 1)?;
        return Ok((Literal::Integer(-(size as i32)), from + 2));
    }
    match kind_at(tokens, from) {
        Some(kind) => Ok((token_literal(alloc, kind, from)?, from + 1)),
        None => Err(ParseFault::SyntaxFault { token: from }),
    }
}

/// The literal that a token is by itself.
fn token_literal(alloc: Global, kind: &TokenKind, token: usize) -> Result<Literal, ParseFault>
    ensures ok { IfOk result (λ value. kind.now ≡ literal_kind value) }
    ensures fault { IfErr result (λ fault. NoLiteral kind.now token fault) }
{
    match literal_of(alloc, kind)? {
        Some(value) => Ok(value),
        None => Err(ParseFault::SyntaxFault { token }),
    }
}

/// literal [ "," ]
fn listed(
    alloc: Global,
    tokens: &[Token],
    from: usize,
) -> Result<(ListedLiteral, usize), ParseFault>
    requires { from ≤ length tokens.now }
    ensures ok { IfOk result
        (λ read. IsPart listed (Unless signs.Comma) tokens.now from read.0 read.1) }
    ensures onward { IfOk result (λ read. from < read.1) }
    ensures fault { IfErr result
        (λ fault. IsLacking listed (Unless signs.Comma) tokens.now from fault) }
{
    let (value, mut end) = literal_at(alloc, tokens, from)?;
    if is_sign(tokens, end, Sign::Comma) {
        end += 1;
    }
    Ok((ListedLiteral { value, token: from }, end))
}

/// { literal [ "," ] } ")"
fn listed_values(
    alloc: Global,
    tokens: &[Token],
    from: usize,
) -> Result<(Vec<ListedLiteral>, usize), ParseFault>
    requires { from ≤ length tokens.now }
    ensures ok { IfOk result
        (λ read. IsPart listed_values Anything tokens.now from read.0.items read.1) }
    ensures fault { IfErr result (λ fault. IsLacking listed_values Anything tokens.now from fault) }
{
    let mut values = Vec::new(alloc);
    let mut at = from;
    while !is_sign(tokens, at, Sign::CloseParen) {
        let (value, end) = listed(alloc, tokens, at)?;
        values.push(value)?;
        at = end;
    }
    Ok((values, at + 1))
}

/// literal, or "#(" { literal [ "," ] } ")"
fn initial(alloc: Global, tokens: &[Token], from: usize) -> Result<(Initial, usize), ParseFault>
    requires { from ≤ length tokens.now }
    ensures ok { IfOk result
        (λ read. IsPart initial Anything tokens.now from (initial_data read.0) read.1) }
    ensures fault { IfErr result (λ fault. IsLacking initial Anything tokens.now from fault) }
{
    if is_sign(tokens, from, Sign::OpenList) {
        let (values, end) = listed_values(alloc, tokens, from + 1)?;
        return Ok((first_list(values, from), end));
    }
    let (value, end) = literal_at(alloc, tokens, from)?;
    Ok((first_literal(value, from), end))
}

/// [ "=" init ]
pub(crate) fn first_value(
    alloc: Global,
    tokens: &[Token],
    from: usize,
) -> Result<(Option<Initial>, usize), ParseFault>
    requires { from ≤ length tokens.now }
    ensures ok { IfOk result (λ read.
        IsPart first_value VariableEnded tokens.now from (option_map initial_data read.0) read.1) }
    ensures fault { IfErr result (λ fault. IsLacking first_value VariableEnded tokens.now from fault) }
{
    if !is_sign(tokens, from, Sign::Assign) {
        return Ok((None, from));
    }
    let (value, end) = initial(alloc, tokens, from + 1)?;
    Ok((Some(value), end))
}
