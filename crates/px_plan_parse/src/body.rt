// What an action does.
ghost use Rattle.std.specs.Prelude.{◌≡◌, ◌+◌, ◌≤◌, ◌<◌, [], length, IfOk, IfErr};
ghost use mir.Syntax.{w32};
ghost use mir.Val.{SFits};
ghost use Rattle.px_syntax.specs.Block.{body_of};
ghost use Rattle.px_syntax.specs.BlockGrammar.{body};
ghost use Rattle.px_syntax.specs.Depth.{too_deep};
ghost use Rattle.px_plan_parse.specs.declared.start.Start.TheVariants as starts;
ghost use Rattle.px_plan_parse.specs.Part.{Anything, IsLacking, IsPart};
ghost use Rattle.px_plan_parse.specs.Start.{start_at, NoBranch};
ghost use Rattle.px_plan_parse.specs.Tail.{counter, end_if};

use crate::block::block;
use crate::branch::{closed_branch, else_ifs, guarded, otherwise};
use crate::build;
use crate::named::{named, update_pairs};
use crate::number::signed_at;
use crate::start::{Start, begins, start_at};
use px_expr_parse::parse_closed;
use px_expr_parse::token::{expect, name_at};
use px_lex::{Sign, Token};
use px_syntax::{Body, Identifier, ParseFault, TypeName};
use std::alloc::Global;

/// A block, an assignment, a command, an update, an `if`, a `while` or a `for`.
#[cycle(block)]
pub(crate) fn body(
    alloc: Global,
    tokens: &[Token],
    from: usize,
) -> Result<(Body, usize), ParseFault>
    requires depth { too_deep tokens.now ≡ [] }
    requires place { from ≤ length tokens.now }
    ensures ok { IfOk result (λ read. IsPart body NoBranch tokens.now from (body_of read.0) read.1) }
    ensures onward { IfOk result (λ read. from < read.1) }
    ensures fault { IfErr result (λ fault. IsLacking body NoBranch tokens.now from fault) }
{
    match start_at(tokens, from) {
        Start::Name => {
            let name = name_at(alloc, tokens, from)?;
            named(alloc, tokens, from + 1, name)
        }
        Start::Form(_) => {
            let (block, end) = block(alloc, tokens, from)?;
            Ok((build::inner(block), end))
        }
        Start::Brace => {
            let (block, end) = block(alloc, tokens, from)?;
            Ok((build::inner(block), end))
        }
        Start::Update => {
            let (pairs, end) = update_pairs(alloc, tokens, from + 1)?;
            Ok((build::update(from, pairs), end))
        }
        Start::If => conditional(alloc, tokens, from),
        Start::While => {
            let (guarded, end) = guarded(alloc, tokens, from + 1)?;
            Ok((build::repeated(guarded), end))
        }
        Start::For => counted(alloc, tokens, from),
        _ => Err(ParseFault::SyntaxFault { token: from }),
    }
}

/// "if" test { "elseif" test } [ "else" branch ] [ "endif" ]
#[cycle(block)]
fn conditional(alloc: Global, tokens: &[Token], from: usize) -> Result<(Body, usize), ParseFault>
    requires depth { too_deep tokens.now ≡ [] }
    requires place { from < length tokens.now }
    requires begins { start_at tokens.now from ≡ starts.If }
    ensures ok { IfOk result (λ read. IsPart body NoBranch tokens.now from (body_of read.0) read.1) }
    ensures onward { IfOk result (λ read. from < read.1) }
    ensures fault { IfErr result (λ fault. IsLacking body NoBranch tokens.now from fault) }
{
    let (first, behind_first) = guarded(alloc, tokens, from + 1)?;
    let (others, behind_others) = else_ifs(alloc, tokens, behind_first)?;
    let (otherwise, behind_otherwise) = otherwise(alloc, tokens, behind_others)?;
    let end = end_if(tokens, behind_otherwise);
    Ok((build::conditional(first, others, otherwise), end))
}

/// [ "endif" ]
fn end_if(tokens: &[Token], from: usize) -> usize
    requires { from ≤ length tokens.now }
    ensures { IsPart end_if NoBranch tokens.now from tt result }
{
    if begins(tokens, from, Start::EndIf) {
        from + 1
    } else {
        from
    }
}

/// "(" "Integer" ID "=" [ "-" ] INT ";"
fn counter(
    alloc: Global,
    tokens: &[Token],
    from: usize,
) -> Result<(Identifier, i32, usize), ParseFault>
    requires { from ≤ length tokens.now }
    ensures ok { IfOk result
        (λ read. IsPart counter Anything tokens.now from (read.0, read.1) read.2) }
    ensures fits { IfOk result (λ read. SFits w32 read.1) }
    ensures fault { IfErr result (λ fault. IsLacking counter Anything tokens.now from fault) }
{
    expect(tokens, from, Sign::OpenParen)?;
    if !begins(tokens, from + 1, Start::Type(TypeName::Integer)) {
        return Err(ParseFault::SyntaxFault { token: from + 1 });
    }
    let variable = name_at(alloc, tokens, from + 2)?;
    expect(tokens, from + 3, Sign::Assign)?;
    let (first, end) = signed_at(tokens, from + 4)?;
    expect(tokens, end, Sign::Semicolon)?;
    Ok((variable, first, end + 1))
}

/// "for" counter expression ";" expression ")" branch
#[cycle(block)]
fn counted(alloc: Global, tokens: &[Token], from: usize) -> Result<(Body, usize), ParseFault>
    requires depth { too_deep tokens.now ≡ [] }
    requires place { from < length tokens.now }
    requires begins { start_at tokens.now from ≡ starts.For }
    ensures ok { IfOk result (λ read. IsPart body NoBranch tokens.now from (body_of read.0) read.1) }
    ensures onward { IfOk result (λ read. from < read.1) }
    ensures fault { IfErr result (λ fault. IsLacking body NoBranch tokens.now from fault) }
{
    let (variable, first, behind_counter) = counter(alloc, tokens, from + 1)?;
    let (test, behind_test) = parse_closed(alloc, tokens, behind_counter, Sign::Semicolon)?;
    let (step, branch, end) = closed_branch(alloc, tokens, behind_test)?;
    Ok((build::counted(variable, first, test, step, branch), end))
}
