// Blocks in braces.
ghost use Rattle.std.specs.Prelude.{◌≡◌, ◌+◌, ◌≤◌, ◌<◌, [], length, map, IfOk, IfErr};
ghost use Rattle.px_syntax.specs.Block.{action_of, actions_in_turn, block_of};
ghost use Rattle.px_syntax.specs.BlockGrammar.{block, label};
ghost use Rattle.px_syntax.specs.Depth.{too_deep};
ghost use Rattle.px_plan_parse.specs.Part.{Anything, IsLacking, IsPart};
ghost use Rattle.px_plan_parse.specs.Start.{NoListWord, NoName};
ghost use Rattle.px_plan_parse.specs.Tail.{closed_actions, head, list_word};

use crate::action::action;
use crate::build;
use crate::item::items;
use crate::start::{Start, begins, start_at};
use px_expr_parse::token::{expect, name_at};
use px_lex::{Sign, Token};
use px_syntax::{Action, Block, BlockForm, Identifier, ParseFault};
use std::alloc::Global;

/// [ ID ":" ]
pub(crate) fn label(
    alloc: Global,
    tokens: &[Token],
    from: usize,
) -> Result<(Option<Identifier>, usize), ParseFault>
    requires { from ≤ length tokens.now }
    ensures ok { IfOk result (λ read. IsPart label NoName tokens.now from read.0 read.1) }
    ensures fault { IfErr result (λ fault. IsLacking label NoName tokens.now from fault) }
{
    if !begins(tokens, from, Start::Name) {
        return Ok((None, from));
    }
    let name = name_at(alloc, tokens, from)?;
    expect(tokens, from + 1, Sign::Colon)?;
    Ok((Some(name), from + 2))
}

/// [ form ] "{"
fn head(tokens: &[Token], from: usize) -> Result<(Option<BlockForm>, usize), ParseFault>
    requires { from ≤ length tokens.now }
    ensures ok { IfOk result (λ read. IsPart head Anything tokens.now from read.0 read.1) }
    ensures onward { IfOk result (λ read. from < read.1) }
    ensures fault { IfErr result (λ fault. IsLacking head Anything tokens.now from fault) }
{
    if let Start::Form(form) = start_at(tokens, from) {
        expect(tokens, from + 1, Sign::OpenBrace)?;
        return Ok((Some(form), from + 2));
    }
    expect(tokens, from, Sign::OpenBrace)?;
    Ok((None, from + 1))
}

/// [ "NodeList" ":" ], in a block without a form
fn list_word(
    tokens: &[Token],
    from: usize,
    word: Option<BlockForm>,
) -> Result<(BlockForm, usize), ParseFault>
    requires { from ≤ length tokens.now }
    ensures ok { IfOk result (λ read. IsPart (list_word word) NoListWord tokens.now from read.0 read.1) }
    ensures fault { IfErr result (λ fault. IsLacking (list_word word) NoListWord tokens.now from fault) }
{
    if let Some(form) = word {
        return Ok((form, from));
    }
    if !begins(tokens, from, Start::NodeList) {
        return Ok((BlockForm::Plain, from));
    }
    expect(tokens, from + 1, Sign::Colon)?;
    Ok((BlockForm::NodeList, from + 2))
}

/// form "{" { item } { action } "}", or "{" { item } [ "NodeList" ":" ] { action } "}"
#[cycle(block)]
pub(crate) fn block(
    alloc: Global,
    tokens: &[Token],
    from: usize,
) -> Result<(Block, usize), ParseFault>
    requires depth { too_deep tokens.now ≡ [] }
    requires place { from ≤ length tokens.now }
    ensures ok { IfOk result
        (λ read. IsPart block Anything tokens.now from (block_of read.0) read.1) }
    ensures onward { IfOk result (λ read. from < read.1) }
    ensures fault { IfErr result (λ fault. IsLacking block Anything tokens.now from fault) }
{
    let (word, inside) = head(tokens, from)?;
    let (items, behind_items) = items(alloc, tokens, inside)?;
    let (form, at) = list_word(tokens, behind_items, word)?;
    let (actions, end) = actions(alloc, tokens, at)?;
    Ok((build::block(form, items, actions), end))
}

/// { action } "}"
#[cycle(block)]
fn actions(alloc: Global, tokens: &[Token], from: usize) -> Result<(Vec<Action>, usize), ParseFault>
    requires depth { too_deep tokens.now ≡ [] }
    requires place { from ≤ length tokens.now }
    ensures ok { IfOk result (λ read.
        IsPart closed_actions Anything tokens.now from
        (actions_in_turn (map action_of read.0.items)) read.1) }
    ensures fault { IfErr result (λ fault. IsLacking closed_actions Anything tokens.now from fault) }
{
    let mut actions = Vec::new(alloc);
    let mut at = from;
    while start_at(tokens, at).is_action() {
        let (action, end) = action(alloc, tokens, at)?;
        actions.push(action)?;
        at = end;
    }
    expect(tokens, at, Sign::CloseBrace)?;
    Ok((actions, at + 1))
}
