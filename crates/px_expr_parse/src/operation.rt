// Operators and their operands.
ghost use Rattle.std.specs.Prelude.{◌≡◌, ◌+◌, ◌≤◌, [], length, IfOk, IfErr};
ghost use Rattle.px_syntax.specs.Depth.{too_deep};
ghost use Rattle.px_syntax.specs.Expr.{term_of};
ghost use Rattle.px_expr_parse.specs.Verdict.{IsExpression, IsNoExpression, IsRead, IsRefused};

use crate::build;
use crate::primary::primary;
use crate::token::{binary_at, is_sign, unary_at};
use px_lex::{Sign, Token};
use px_syntax::{Operator, ParseFault, SurfaceExpr};
use std::alloc::Global;

/// The longest expression that tokens spell from a place on, and the place behind it (PLEXIL reference manual,
/// "Expressions").
///
/// `SyntaxFault` comes exactly where there is none, or where an operator between operands, `[` or a dot stands behind
/// it, since no expression of a plan is followed by one of these. It names the first token such that no expression begins
/// with those from `from` up to and including it, or the number of tokens where the end comes too early. Both answers hold
/// of all tokens that agree up to and including the place behind the expression or the named token. `Deep` never comes:
/// that no token is too deep bounds the stack.
pub fn parse_expr(
    alloc: Global,
    tokens: &[Token],
    from: usize,
) -> Result<(SurfaceExpr, usize), ParseFault>
    requires depth { too_deep tokens.now ≡ [] }
    requires place { from ≤ length tokens.now }
    ensures ok { IfOk result (λ read. IsExpression tokens.now from (term_of read.0) read.1) }
    ensures fault { IfErr result (λ fault. IsNoExpression tokens.now from fault) }
    ensures read { IfOk result (λ read. IsRead 0 tokens.now from (term_of read.0) read.1) }
    ensures refused { IfErr result (λ fault. IsRefused 0 tokens.now from fault) }
{
    let (tree, end) = operation(alloc, tokens, from, 0)?;
    if is_sign(tokens, end, Sign::OpenBracket) || is_sign(tokens, end, Sign::Dot) {
        return Err(ParseFault::SyntaxFault { token: end });
    }
    Ok((tree, end))
}

/// operand { operator operand }, with operators of at least a level.
#[cycle(expression)]
pub(crate) fn operation(
    alloc: Global,
    tokens: &[Token],
    from: usize,
    floor: u8,
) -> Result<(SurfaceExpr, usize), ParseFault>
    requires place { from ≤ length tokens.now }
    requires level { floor ≤ 8 }
    ensures ok { IfOk result (λ read. IsRead floor tokens.now from (term_of read.0) read.1) }
    ensures fault { IfErr result (λ fault. IsRefused floor tokens.now from fault) }
{
    let (mut left, mut at) = operand(alloc, tokens, from)?;
    while let Some(operator) = binary_at(tokens, at) {
        let level = Operator::Binary(operator).level();
        if level < floor {
            break;
        }
        let (right, end) = operation(alloc, tokens, at + 1, level + 1)?;
        left = build::binary(alloc, operator, left, right)?;
        at = end;
    }
    Ok((left, at))
}

/// { operator } primary
#[cycle(expression)]
fn operand(alloc: Global, tokens: &[Token], from: usize) -> Result<(SurfaceExpr, usize), ParseFault>
    requires { from ≤ length tokens.now }
    ensures ok { IfOk result (λ read. IsRead 8 tokens.now from (term_of read.0) read.1) }
    ensures fault { IfErr result (λ fault. IsRefused 8 tokens.now from fault) }
{
    let Some(operator) = unary_at(tokens, from) else {
        return primary(alloc, tokens, from);
    };
    let (tree, end) = operand(alloc, tokens, from + 1)?;
    Ok((build::unary(alloc, operator, from, tree)?, end))
}
