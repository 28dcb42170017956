// Actions, with their labels.
ghost use Rattle.std.specs.Prelude.{◌≡◌, ◌+◌, ◌≤◌, ◌<◌, [], length, IfOk, IfErr};
ghost use Rattle.px_syntax.specs.Block.{action_of};
ghost use Rattle.px_syntax.specs.BlockGrammar.{action};
ghost use Rattle.px_syntax.specs.Depth.{too_deep};
ghost use Rattle.px_plan_parse.specs.Part.{IsLacking, IsPart};
ghost use Rattle.px_plan_parse.specs.Start.{NoBranch};

use crate::body::body;
use crate::build;
use crate::named::named;
use crate::start::{Start, begins};
use px_expr_parse::token::{is_sign, name_at};
use px_lex::{Sign, Token};
use px_syntax::{Action, ParseFault};
use std::alloc::Global;

/// [ ID ":" ] body
#[cycle(block)]
pub(crate) fn action(
    alloc: Global,
    tokens: &[Token],
    from: usize,
) -> Result<(Action, usize), ParseFault>
    requires depth { too_deep tokens.now ≡ [] }
    requires place { from ≤ length tokens.now }
    ensures ok { IfOk result
        (λ read. IsPart action NoBranch tokens.now from (action_of read.0) read.1) }
    ensures onward { IfOk result (λ read. from < read.1) }
    ensures fault { IfErr result (λ fault. IsLacking action NoBranch tokens.now from fault) }
{
    if !begins(tokens, from, Start::Name) {
        let (body, end) = body(alloc, tokens, from)?;
        return Ok((build::action(None, body), end));
    }
    let name = name_at(alloc, tokens, from)?;
    if is_sign(tokens, from + 1, Sign::Colon) {
        let (body, end) = body(alloc, tokens, from + 2)?;
        return Ok((build::action(Some(name), body), end));
    }
    let (body, end) = named(alloc, tokens, from + 1, name)?;
    Ok((build::action(None, body), end))
}
