// What stands behind the name of a lookup.
ghost use Rattle.std.specs.Prelude.{◌≡◌, ◌+◌, ◌≤◌, ◌<◌, ◌↔◌, length, map, IsTrue, IfOk, IfErr};
ghost use Rattle.px_lex.specs.declared.sign.Sign.TheVariants.{Comma};
ghost use Rattle.px_syntax.specs.Expr.{in_turn, term_of};
ghost use Rattle.px_syntax.specs.ExprGrammar.{look_end, tolerance_number};
ghost use Rattle.px_syntax.specs.declared.word.LookWord.TheVariants.{LookupOnChange};
ghost use Rattle.px_expr_parse.specs.Tail.{look_rest};
ghost use Rattle.px_expr_parse.specs.Verdict.{HasSign, IsFound, IsMissing};

use crate::argument::arguments;
use crate::token::{expect, is_sign, kind_at};
use px_lex::{Sign, Token, TokenKind};
use px_syntax::{LookWord, ParseFault, SurfaceExpr, Tolerance};
use std::alloc::Global;

/// [ "(" [ expression { "," expression } ] ")" ] and what closes a lookup of the word
#[cycle(expression)]
pub(crate) fn look_rest(
    alloc: Global,
    tokens: &[Token],
    from: usize,
    word: LookWord,
) -> Result<(Vec<SurfaceExpr>, Option<Tolerance>, usize), ParseFault>
    requires { from ≤ length tokens.now }
    ensures ok { IfOk result (λ read. IsFound (look_rest word) tokens.now from
        (in_turn (map term_of read.0.items), read.1) read.2) }
    ensures fault { IfErr result (λ fault. IsMissing (look_rest word) tokens.now from fault) }
{
    if !is_sign(tokens, from, Sign::OpenParen) {
        let (tolerance, end) = look_end(tokens, from, word)?;
        return Ok((Vec::new(alloc), tolerance, end));
    }
    let (args, middle) = arguments(alloc, tokens, from + 1)?;
    let (tolerance, end) = look_end(tokens, middle, word)?;
    Ok((args, tolerance, end))
}

/// [ "," INT ] ")", the INT of LookupOnChange alone
fn look_end(
    tokens: &[Token],
    from: usize,
    word: LookWord,
) -> Result<(Option<Tolerance>, usize), ParseFault>
    requires { from ≤ length tokens.now }
    ensures ok { IfOk result (λ read. IsFound (look_end word) tokens.now from read.0 read.1) }
    ensures fault { IfErr result (λ fault. IsMissing (look_end word) tokens.now from fault) }
{
    if has_comma(tokens, from, word) {
        let tolerance = tolerance_at(tokens, from + 1)?;
        expect(tokens, from + 2, Sign::CloseParen)?;
        return Ok((Some(tolerance), from + 3));
    }
    expect(tokens, from, Sign::CloseParen)?;
    Ok((None, from + 1))
}

/// Whether a comma stands at a place where a lookup of the word may have one.
fn has_comma(tokens: &[Token], at: usize, word: LookWord) -> bool
    ensures answer { IsTrue result ↔ ((word ≡ LookupOnChange) × HasSign tokens.now at Comma) }
    ensures inside { IsTrue result → at < length tokens.now }
{
    word == LookWord::LookupOnChange && is_sign(tokens, at, Sign::Comma)
}

/// The tolerance at a place.
fn tolerance_at(tokens: &[Token], at: usize) -> Result<Tolerance, ParseFault>
    requires { at ≤ length tokens.now }
    ensures ok { IfOk result (λ tolerance. IsFound tolerance_number tokens.now at tolerance (at + 1)) }
    ensures fault { IfErr result (λ fault. IsMissing tolerance_number tokens.now at fault) }
{
    match kind_at(tokens, at) {
        Some(TokenKind::Integer(value)) if *value >= 0 => Ok(Tolerance {
            distance: value.unsigned_abs(),
            token: at,
        }),
        _ => Err(ParseFault::SyntaxFault { token: at }),
    }
}
