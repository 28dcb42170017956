// Declared variables.
ghost use Rattle.std.specs.Prelude.{◌≡◌, ◌+◌, ◌≤◌, ◌<◌, length, map, IfOk, IfErr};
ghost use Rattle.px_lex.specs.declared.sign.Sign.TheVariants as signs;
ghost use Rattle.px_syntax.specs.Block.{variable_data};
ghost use Rattle.px_syntax.specs.BlockGrammar.{variable};
ghost use Rattle.px_plan_parse.specs.Part.{Anything, IsLacking, IsPart};
ghost use Rattle.px_plan_parse.specs.Tail.{array_size, closed_variables, Unless, VariableEnded};

use crate::build::declared;
use crate::literal::first_value;
use crate::number::number_at;
use px_expr_parse::token::{expect, is_sign, name_at};
use px_lex::{Sign, Token};
use px_syntax::{ParseFault, Variable};
use std::alloc::Global;

/// [ "[" INT "]" ]
fn array_size(tokens: &[Token], from: usize) -> Result<(Option<u32>, usize), ParseFault>
    requires { from ≤ length tokens.now }
    ensures ok { IfOk result
        (λ read. IsPart array_size (Unless signs.OpenBracket) tokens.now from read.0 read.1) }
    ensures fault { IfErr result
        (λ fault. IsLacking array_size (Unless signs.OpenBracket) tokens.now from fault) }
{
    if !is_sign(tokens, from, Sign::OpenBracket) {
        return Ok((None, from));
    }
    let size = number_at(tokens, from + 1)?;
    expect(tokens, from + 2, Sign::CloseBracket)?;
    Ok((Some(size), from + 3))
}

/// ID [ "[" INT "]" ] [ "=" init ]
fn variable(alloc: Global, tokens: &[Token], from: usize) -> Result<(Variable, usize), ParseFault>
    requires { from ≤ length tokens.now }
    ensures ok { IfOk result (λ read.
        IsPart variable VariableEnded tokens.now from (variable_data read.0) read.1) }
    ensures onward { IfOk result (λ read. from < read.1) }
    ensures fault { IfErr result
        (λ fault. IsLacking variable VariableEnded tokens.now from fault) }
{
    let name = name_at(alloc, tokens, from)?;
    let (size, behind) = array_size(tokens, from + 1)?;
    let (initial, end) = first_value(alloc, tokens, behind)?;
    Ok((declared(name, size, initial), end))
}

/// var { "," var } ";"
pub(crate) fn variables(
    alloc: Global,
    tokens: &[Token],
    from: usize,
) -> Result<(Vec<Variable>, usize), ParseFault>
    requires { from ≤ length tokens.now }
    ensures ok { IfOk result (λ read.
        IsPart closed_variables Anything tokens.now from (map variable_data read.0.items) read.1) }
    ensures fault { IfErr result
        (λ fault. IsLacking closed_variables Anything tokens.now from fault) }
{
    let (first, mut at) = variable(alloc, tokens, from)?;
    let mut variables = vec![in alloc; first]?;
    while is_sign(tokens, at, Sign::Comma) {
        let (next, end) = variable(alloc, tokens, at + 1)?;
        variables.push(next)?;
        at = end;
    }
    expect(tokens, at, Sign::Semicolon)?;
    Ok((variables, at + 1))
}
