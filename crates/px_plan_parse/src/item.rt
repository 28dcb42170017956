// Items of blocks.
ghost use Rattle.std.specs.Prelude.{◌≡◌, ◌+◌, ◌≤◌, ◌<◌, [], true, length, map, IfOk, IfErr};
ghost use Rattle.px_syntax.specs.Block.{item_data};
ghost use Rattle.px_syntax.specs.BlockGrammar.{item};
ghost use Rattle.px_syntax.specs.Depth.{too_deep};
ghost use Rattle.px_syntax.specs.Expr.{term_of};
ghost use Rattle.px_plan_parse.specs.Part.{Anything, IsLacking, IsPart};
ghost use Rattle.px_plan_parse.specs.Start.{is_item, start_at, NoItem};
ghost use Rattle.px_plan_parse.specs.Tail.{every_item, priority, test};

use crate::build;
use crate::number::number_at;
use crate::start::{Start, start_at};
use crate::variable::variables;
use px_expr_parse::parse_closed;
use px_expr_parse::token::{expect, is_sign};
use px_lex::{Sign, Token};
use px_syntax::{Item, ParseFault, SurfaceExpr};
use std::alloc::Global;

/// [ ":" ] expression ";"
fn test(alloc: Global, tokens: &[Token], from: usize) -> Result<(SurfaceExpr, usize), ParseFault>
    requires depth { too_deep tokens.now ≡ [] }
    requires place { from ≤ length tokens.now }
    ensures ok { IfOk result
        (λ read. IsPart test Anything tokens.now from (term_of read.0) read.1) }
    ensures fault { IfErr result (λ fault. IsLacking test Anything tokens.now from fault) }
{
    if is_sign(tokens, from, Sign::Colon) {
        return parse_closed(alloc, tokens, from + 1, Sign::Semicolon);
    }
    parse_closed(alloc, tokens, from, Sign::Semicolon)
}

/// [ ":" ] INT ";"
fn priority(tokens: &[Token], from: usize) -> Result<(u32, usize), ParseFault>
    requires { from ≤ length tokens.now }
    ensures ok { IfOk result (λ read. IsPart priority Anything tokens.now from read.0 read.1) }
    ensures fault { IfErr result (λ fault. IsLacking priority Anything tokens.now from fault) }
{
    let mut at = from;
    if is_sign(tokens, from, Sign::Colon) {
        at = from + 1;
    }
    let priority = number_at(tokens, at)?;
    expect(tokens, at + 1, Sign::Semicolon)?;
    Ok((priority, at + 2))
}

/// A declaration of variables, a condition or a priority.
fn item(alloc: Global, tokens: &[Token], from: usize) -> Result<(Item, usize), ParseFault>
    requires depth { too_deep tokens.now ≡ [] }
    requires place { from ≤ length tokens.now }
    ensures ok { IfOk result
        (λ read. IsPart item Anything tokens.now from (item_data read.0) read.1) }
    ensures onward { IfOk result (λ read. from < read.1) }
    ensures fault { IfErr result (λ fault. IsLacking item Anything tokens.now from fault) }
{
    match start_at(tokens, from) {
        Start::Type(of_type) => {
            let (variables, end) = variables(alloc, tokens, from + 1)?;
            Ok((build::declarations(of_type, variables), end))
        }
        Start::Condition(condition) => {
            let (test, end) = test(alloc, tokens, from + 1)?;
            Ok((build::condition(condition, from, test), end))
        }
        Start::Priority => {
            let (priority, end) = priority(tokens, from + 1)?;
            Ok((
                Item::Priority {
                    token: from,
                    priority,
                },
                end,
            ))
        }
        _ => Err(ParseFault::SyntaxFault { token: from }),
    }
}

/// { item }
pub(crate) fn items(
    alloc: Global,
    tokens: &[Token],
    from: usize,
) -> Result<(Vec<Item>, usize), ParseFault>
    requires depth { too_deep tokens.now ≡ [] }
    requires place { from ≤ length tokens.now }
    ensures ok { IfOk result (λ read.
        IsPart every_item NoItem tokens.now from (map item_data read.0.items) read.1) }
    ensures fault { IfErr result (λ fault. IsLacking every_item NoItem tokens.now from fault) }
{
    let mut items = Vec::new(alloc);
    let mut at = from;
    while start_at(tokens, at).is_item() {
        let (item, end) = item(alloc, tokens, at)?;
        items.push(item)?;
        at = end;
    }
    Ok((items, at))
}
