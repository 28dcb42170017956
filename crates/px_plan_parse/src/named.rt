// Actions that begin with a name: commands and assignments; and updates.
ghost use Rattle.std.specs.Prelude.{◌≡◌, ◌+◌, ◌≤◌, ◌<◌, [], length, map, option_map, IfOk, IfErr, IsTrue, ◌↔◌};
ghost use Rattle.px_lex.specs.declared.sign.Sign.TheVariants as signs;
ghost use Rattle.px_syntax.specs.Block.{body_of, pair_data};
ghost use Rattle.px_syntax.specs.BlockGrammar.{pair};
ghost use Rattle.px_syntax.specs.Depth.{too_deep};
ghost use Rattle.px_syntax.specs.Expr.{in_turn, term_of};
ghost use Rattle.px_plan_parse.specs.Named.{called, named, optional_index, written, written_data, BeginsCall, IsNamed};
ghost use Rattle.px_plan_parse.specs.Part.{Anything, Ended, IsLacking, IsPart};
ghost use Rattle.px_plan_parse.specs.Tail.{closed_pairs, update_pairs, Unless};

use crate::build;
use crate::start::{Start, begins};
use px_expr_parse::token::{expect, is_sign, name_at};
use px_expr_parse::{parse_arguments, parse_closed, parse_expr};
use px_lex::{Sign, Token};
use px_syntax::{Body, Call, Identifier, Pair, ParseFault, SurfaceExpr};
use std::alloc::Global;

/// What is assigned: a value, or what a command returns.
pub(crate) enum Assigned {
    Value(SurfaceExpr),
    Answer(Call),
}

/// [ "[" expression "]" ]
fn optional_index(
    alloc: Global,
    tokens: &[Token],
    from: usize,
) -> Result<(Option<SurfaceExpr>, usize), ParseFault>
    requires depth { too_deep tokens.now ≡ [] }
    requires place { from ≤ length tokens.now }
    ensures ok { IfOk result (λ read.
        IsPart optional_index (Unless signs.OpenBracket) tokens.now from (option_map term_of read.0) read.1) }
    ensures fault { IfErr result
        (λ fault. IsLacking optional_index (Unless signs.OpenBracket) tokens.now from fault) }
{
    if !is_sign(tokens, from, Sign::OpenBracket) {
        return Ok((None, from));
    }
    let (index, end) = parse_closed(alloc, tokens, from + 1, Sign::CloseBracket)?;
    Ok((Some(index), end))
}

/// "(" [ expression { "," expression } ] ")" ";"
fn called(
    alloc: Global,
    tokens: &[Token],
    from: usize,
) -> Result<(Vec<SurfaceExpr>, usize), ParseFault>
    requires depth { too_deep tokens.now ≡ [] }
    requires place { from ≤ length tokens.now }
    ensures ok { IfOk result (λ read.
        IsPart called Anything tokens.now from (in_turn (map term_of read.0.items)) read.1) }
    ensures fault { IfErr result (λ fault. IsLacking called Anything tokens.now from fault) }
{
    expect(tokens, from, Sign::OpenParen)?;
    let (args, end) = parse_arguments(alloc, tokens, from + 1)?;
    expect(tokens, end, Sign::Semicolon)?;
    Ok((args, end + 1))
}

/// Whether a name stands at a place, and a parenthesis behind it.
fn calls(tokens: &[Token], at: usize) -> bool
    requires { at ≤ length tokens.now }
    ensures { IsTrue result ↔ BeginsCall tokens.now at }
{
    begins(tokens, at, Start::Name) && is_sign(tokens, at + 1, Sign::OpenParen)
}

/// expression ";", or call ";"
fn written(alloc: Global, tokens: &[Token], from: usize) -> Result<(Assigned, usize), ParseFault>
    requires depth { too_deep tokens.now ≡ [] }
    requires place { from ≤ length tokens.now }
    ensures ok { IfOk result
        (λ read. IsPart written Anything tokens.now from (written_data read.0) read.1) }
    ensures fault { IfErr result (λ fault. IsLacking written Anything tokens.now from fault) }
{
    if calls(tokens, from) {
        let name = name_at(alloc, tokens, from)?;
        let (args, end) = called(alloc, tokens, from + 1)?;
        return Ok((build::answer(name, args), end));
    }
    let (value, end) = parse_expr(alloc, tokens, from)?;
    expect(tokens, end, Sign::Semicolon)?;
    Ok((Assigned::Value(value), end + 1))
}

/// What stands behind a name: the arguments of a command, or the index and value of an assignment.
pub(crate) fn named(
    alloc: Global,
    tokens: &[Token],
    from: usize,
    name: Identifier,
) -> Result<(Body, usize), ParseFault>
    requires depth { too_deep tokens.now ≡ [] }
    requires place { from ≤ length tokens.now }
    ensures ok { IfOk result (λ read. IsNamed name tokens.now from (body_of read.0) read.1) }
    ensures fault { IfErr result (λ fault. IsLacking named Anything tokens.now from fault) }
{
    if is_sign(tokens, from, Sign::OpenParen) {
        let (args, end) = called(alloc, tokens, from)?;
        return Ok((build::call(name, args), end));
    }
    let (index, at) = optional_index(alloc, tokens, from)?;
    expect(tokens, at, Sign::Assign)?;
    let (value, end) = written(alloc, tokens, at + 1)?;
    Ok((build::written(name, index, value), end))
}

/// ID "=" expression
fn pair(alloc: Global, tokens: &[Token], from: usize) -> Result<(Pair, usize), ParseFault>
    requires depth { too_deep tokens.now ≡ [] }
    requires place { from ≤ length tokens.now }
    ensures ok { IfOk result (λ read. IsPart pair Ended tokens.now from (pair_data read.0) read.1) }
    ensures onward { IfOk result (λ read. from < read.1) }
    ensures fault { IfErr result (λ fault. IsLacking pair Ended tokens.now from fault) }
{
    let name = name_at(alloc, tokens, from)?;
    expect(tokens, from + 1, Sign::Assign)?;
    let (value, end) = parse_expr(alloc, tokens, from + 2)?;
    Ok((build::pair(name, value), end))
}

/// pair { "," pair } ";"
fn closed_pairs(
    alloc: Global,
    tokens: &[Token],
    from: usize,
) -> Result<(Vec<Pair>, usize), ParseFault>
    requires depth { too_deep tokens.now ≡ [] }
    requires place { from ≤ length tokens.now }
    ensures ok { IfOk result (λ read.
        IsPart closed_pairs Anything tokens.now from (map pair_data read.0.items) read.1) }
    ensures fault { IfErr result (λ fault. IsLacking closed_pairs Anything tokens.now from fault) }
{
    let (first, mut at) = pair(alloc, tokens, from)?;
    let mut pairs = vec![in alloc; first]?;
    while is_sign(tokens, at, Sign::Comma) {
        let (next, end) = pair(alloc, tokens, at + 1)?;
        pairs.push(next)?;
        at = end;
    }
    expect(tokens, at, Sign::Semicolon)?;
    Ok((pairs, at + 1))
}

/// [ ":" ] pair { "," pair } ";"
pub(crate) fn update_pairs(
    alloc: Global,
    tokens: &[Token],
    from: usize,
) -> Result<(Vec<Pair>, usize), ParseFault>
    requires depth { too_deep tokens.now ≡ [] }
    requires place { from ≤ length tokens.now }
    ensures ok { IfOk result (λ read.
        IsPart update_pairs Anything tokens.now from (map pair_data read.0.items) read.1) }
    ensures fault { IfErr result (λ fault. IsLacking update_pairs Anything tokens.now from fault) }
{
    if is_sign(tokens, from, Sign::Colon) {
        return closed_pairs(alloc, tokens, from + 1);
    }
    closed_pairs(alloc, tokens, from)
}
