// What stands in parentheses or brackets.
ghost use Rattle.std.specs.Prelude.{◌≡◌, ◌+◌, ◌≤◌, ◌<◌, [], length, map, true, IfOk, IfErr};
ghost use Rattle.px_syntax.specs.Depth.{too_deep};
ghost use Rattle.px_syntax.specs.Expr.{in_turn, term_of};
ghost use Rattle.px_expr_parse.specs.Tail.{closed, closed_arguments, is_closer};
ghost use Rattle.px_expr_parse.specs.Verdict.{IsFound, IsMissing};

use crate::operation::operation;
use crate::token::{expect, is_sign};
use px_lex::{Sign, Token};
use px_syntax::{ParseFault, SurfaceExpr};
use std::alloc::Global;

/// The expression that a sign closes, and the place behind that sign (PLEXIL reference manual, "Expressions").
///
/// `SyntaxFault` comes exactly where there is none. It names the first token such that no expression that the sign closes
/// begins with those from `from` up to and including it, or the number of tokens where the end comes too early. `Deep`
/// never comes: that no token is too deep bounds the stack.
pub fn parse_closed(
    alloc: Global,
    tokens: &[Token],
    from: usize,
    close: Sign,
) -> Result<(SurfaceExpr, usize), ParseFault>
    requires depth { too_deep tokens.now ≡ [] }
    requires place { from ≤ length tokens.now }
    requires closer { is_closer close ≡ true }
    ensures ok { IfOk result
        (λ read. IsFound (closed close) tokens.now from (term_of read.0) read.1) }
    ensures fault { IfErr result (λ fault. IsMissing (closed close) tokens.now from fault) }
{
    closed(alloc, tokens, from, close)
}

/// The arguments from behind an opening parenthesis on, and the place behind the one that closes them (PLEXIL
/// reference manual, "Expressions").
///
/// `SyntaxFault` comes exactly where there are none. It names the first token such that no arguments begin with those from
/// `from` up to and including it, or the number of tokens where the end comes too early. `Deep` never comes: that no token
/// is too deep bounds the stack.
pub fn parse_arguments(
    alloc: Global,
    tokens: &[Token],
    from: usize,
) -> Result<(Vec<SurfaceExpr>, usize), ParseFault>
    requires depth { too_deep tokens.now ≡ [] }
    requires place { from ≤ length tokens.now }
    ensures ok { IfOk result (λ read.
        IsFound closed_arguments tokens.now from (in_turn (map term_of read.0.items)) read.1) }
    ensures fault { IfErr result (λ fault. IsMissing closed_arguments tokens.now from fault) }
{
    arguments(alloc, tokens, from)
}

/// expression close
#[cycle(expression)]
pub(crate) fn closed(
    alloc: Global,
    tokens: &[Token],
    from: usize,
    close: Sign,
) -> Result<(SurfaceExpr, usize), ParseFault>
    requires place { from ≤ length tokens.now }
    requires closer { is_closer close ≡ true }
    ensures ok { IfOk result
        (λ read. IsFound (closed close) tokens.now from (term_of read.0) read.1) }
    ensures fault { IfErr result (λ fault. IsMissing (closed close) tokens.now from fault) }
{
    let (tree, end) = operation(alloc, tokens, from, 0)?;
    expect(tokens, end, close)?;
    Ok((tree, end + 1))
}

/// [ expression { "," expression } ] ")"
#[cycle(expression)]
pub(crate) fn arguments(
    alloc: Global,
    tokens: &[Token],
    from: usize,
) -> Result<(Vec<SurfaceExpr>, usize), ParseFault>
    requires { from ≤ length tokens.now }
    ensures ok { IfOk result (λ read.
        IsFound closed_arguments tokens.now from (in_turn (map term_of read.0.items)) read.1) }
    ensures fault { IfErr result (λ fault. IsMissing closed_arguments tokens.now from fault) }
{
    let mut args = Vec::new(alloc);
    if is_sign(tokens, from, Sign::CloseParen) {
        return Ok((args, from + 1));
    }
    let mut at = from;
    loop {
        let (arg, end) = operation(alloc, tokens, at, 0)?;
        args.push(arg)?;
        if !is_sign(tokens, end, Sign::Comma) {
            expect(tokens, end, Sign::CloseParen)?;
            return Ok((args, end + 1));
        }
        at = end + 1;
    }
}
