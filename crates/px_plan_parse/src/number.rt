// Numbers.
ghost use Rattle.std.specs.Prelude.{◌≡◌, ℕ, ◌+◌, ◌≤◌, ◌<◌, ◌^◌, length, IfOk, IfErr};
ghost use mir.Syntax.{w32};
ghost use mir.Val.{SFits};
ghost use Rattle.px_syntax.specs.BlockGrammar.{signed};
ghost use Rattle.px_syntax.specs.Form.{number};
ghost use Rattle.px_plan_parse.specs.Part.{Anything, IsLacking, IsPart};

use px_expr_parse::token::{is_sign, kind_at};
use px_lex::{Sign, Token, TokenKind};
use px_syntax::ParseFault;

/// The number with no sign at a place.
pub(crate) fn number_at(tokens: &[Token], at: usize) -> Result<u32, ParseFault>
    requires { at ≤ length tokens.now }
    ensures ok { IfOk result (λ size. IsPart number Anything tokens.now at size (at + 1)) }
    ensures small { IfOk result (λ size. size < 2 ^ 31) }
    ensures fault { IfErr result (λ fault. IsLacking number Anything tokens.now at fault) }
{
    match kind_at(tokens, at) {
        Some(TokenKind::Integer(value)) if *value >= 0 => Ok(value.unsigned_abs()),
        _ => Err(ParseFault::SyntaxFault { token: at }),
    }
}

/// A number that a minus may stand before, and the place behind it.
pub(crate) fn signed_at(tokens: &[Token], from: usize) -> Result<(i32, usize), ParseFault>
    requires { from ≤ length tokens.now }
    ensures ok { IfOk result (λ read. IsPart signed Anything tokens.now from read.0 read.1) }
    ensures fits { IfOk result (λ read. SFits w32 read.0) }
    ensures onward { IfOk result (λ read. from < read.1) }
    ensures fault { IfErr result (λ fault. IsLacking signed Anything tokens.now from fault) }
{
    if is_sign(tokens, from, Sign::Minus) {
        let size = number_at(tokens, from + 1)?;
        return Ok((-(size as i32), from + 2));
    }
    match kind_at(tokens, from) {
        Some(TokenKind::Integer(value)) => Ok((*value, from + 1)),
        _ => Err(ParseFault::SyntaxFault { token: from }),
    }
}
