// Branches, and their tests.
ghost use Rattle.std.specs.Prelude.{◌≡◌, ◌+◌, ◌≤◌, ◌<◌, [], length, map, option_map, IfOk, IfErr};
ghost use Rattle.px_syntax.specs.Block.{branch_of, else_ifs_in_turn, else_of, guarded_of};
ghost use Rattle.px_syntax.specs.BlockGrammar.{branch, else_ifs, guarded, otherwise};
ghost use Rattle.px_syntax.specs.Depth.{too_deep};
ghost use Rattle.px_syntax.specs.Expr.{term_of};
ghost use Rattle.px_plan_parse.specs.Part.{Anything, IsLacking, IsPart};
ghost use Rattle.px_plan_parse.specs.Start.{NoElse, NoElseIf};
ghost use Rattle.px_plan_parse.specs.Tail.{closed_branch};

use crate::block::{block, label};
use crate::build;
use crate::start::{Start, begins};
use px_expr_parse::parse_closed;
use px_expr_parse::token::expect;
use px_lex::{Sign, Token};
use px_syntax::{Branch, Guarded, ParseFault, SurfaceExpr};
use std::alloc::Global;

/// [ ID ":" ] block
#[cycle(block)]
pub(crate) fn branch(
    alloc: Global,
    tokens: &[Token],
    from: usize,
) -> Result<(Branch, usize), ParseFault>
    requires depth { too_deep tokens.now ≡ [] }
    requires place { from ≤ length tokens.now }
    ensures ok { IfOk result
        (λ read. IsPart branch Anything tokens.now from (branch_of read.0) read.1) }
    ensures fault { IfErr result (λ fault. IsLacking branch Anything tokens.now from fault) }
{
    let (label, at) = label(alloc, tokens, from)?;
    let (block, end) = block(alloc, tokens, at)?;
    Ok((build::branch(label, block), end))
}

/// expression ")" branch
#[cycle(block)]
pub(crate) fn closed_branch(
    alloc: Global,
    tokens: &[Token],
    from: usize,
) -> Result<(SurfaceExpr, Branch, usize), ParseFault>
    requires depth { too_deep tokens.now ≡ [] }
    requires place { from ≤ length tokens.now }
    ensures ok { IfOk result (λ read.
        IsPart closed_branch Anything tokens.now from (term_of read.0, branch_of read.1) read.2) }
    ensures fault { IfErr result (λ fault. IsLacking closed_branch Anything tokens.now from fault) }
{
    let (expr, at) = parse_closed(alloc, tokens, from, Sign::CloseParen)?;
    let (branch, end) = branch(alloc, tokens, at)?;
    Ok((expr, branch, end))
}

/// "(" expression ")" branch
#[cycle(block)]
pub(crate) fn guarded(
    alloc: Global,
    tokens: &[Token],
    from: usize,
) -> Result<(Guarded, usize), ParseFault>
    requires depth { too_deep tokens.now ≡ [] }
    requires place { from ≤ length tokens.now }
    ensures ok { IfOk result
        (λ read. IsPart guarded Anything tokens.now from (guarded_of read.0) read.1) }
    ensures fault { IfErr result (λ fault. IsLacking guarded Anything tokens.now from fault) }
{
    expect(tokens, from, Sign::OpenParen)?;
    let (test, branch, end) = closed_branch(alloc, tokens, from + 1)?;
    Ok((build::guarded(test, branch), end))
}

/// { "elseif" "(" expression ")" branch }
#[cycle(block)]
pub(crate) fn else_ifs(
    alloc: Global,
    tokens: &[Token],
    from: usize,
) -> Result<(Vec<Guarded>, usize), ParseFault>
    requires depth { too_deep tokens.now ≡ [] }
    requires place { from ≤ length tokens.now }
    ensures ok { IfOk result (λ read.
        IsPart else_ifs NoElseIf tokens.now from
        (else_ifs_in_turn (map guarded_of read.0.items)) read.1) }
    ensures fault { IfErr result (λ fault. IsLacking else_ifs NoElseIf tokens.now from fault) }
{
    let mut others = Vec::new(alloc);
    let mut at = from;
    while begins(tokens, at, Start::ElseIf) {
        let (other, end) = guarded(alloc, tokens, at + 1)?;
        others.push(other)?;
        at = end;
    }
    Ok((others, at))
}

/// [ "else" branch ]
#[cycle(block)]
pub(crate) fn otherwise(
    alloc: Global,
    tokens: &[Token],
    from: usize,
) -> Result<(Option<Branch>, usize), ParseFault>
    requires depth { too_deep tokens.now ≡ [] }
    requires place { from ≤ length tokens.now }
    ensures ok { IfOk result (λ read.
        IsPart otherwise NoElse tokens.now from (else_of (option_map branch_of read.0)) read.1) }
    ensures fault { IfErr result (λ fault. IsLacking otherwise NoElse tokens.now from fault) }
{
    if !begins(tokens, from, Start::Else) {
        return Ok((None, from));
    }
    let (branch, end) = branch(alloc, tokens, from + 1)?;
    Ok((Some(branch), end))
}
