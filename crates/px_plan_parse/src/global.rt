// Declarations before the root.
ghost use Rattle.std.specs.Prelude.{◌≡◌, ◌+◌, ◌≤◌, ◌<◌, length, map, IfOk, IfErr};
ghost use Rattle.px_syntax.specs.Plan.{declaration_data};
ghost use Rattle.px_syntax.specs.PlanGrammar.{declaration, parameter};
ghost use Rattle.px_plan_parse.specs.declared.start.Start.TheVariants as starts;
ghost use Rattle.px_plan_parse.specs.Part.{Anything, IsLacking, IsPart};
ghost use Rattle.px_plan_parse.specs.Start.{start_at, NoDeclaration, NoName};
ghost use Rattle.px_plan_parse.specs.Tail.{closed_parameters, declared_parameters, every_declaration, signature};

use crate::build;
use crate::start::{Start, begins, start_at};
use px_expr_parse::token::{expect, is_sign, name_at};
use px_lex::{Sign, Token};
use px_syntax::{Declaration, Identifier, Parameter, ParseFault, TypeName};
use std::alloc::Global;

/// type [ ID ]
fn parameter(alloc: Global, tokens: &[Token], from: usize) -> Result<(Parameter, usize), ParseFault>
    requires { from ≤ length tokens.now }
    ensures ok { IfOk result (λ read. IsPart parameter NoName tokens.now from read.0 read.1) }
    ensures onward { IfOk result (λ read. from < read.1) }
    ensures fault { IfErr result (λ fault. IsLacking parameter NoName tokens.now from fault) }
{
    let Start::Type(of_type) = start_at(tokens, from) else {
        return Err(ParseFault::SyntaxFault { token: from });
    };
    if !begins(tokens, from + 1, Start::Name) {
        return Ok((build::parameter(of_type, None), from + 1));
    }
    let name = name_at(alloc, tokens, from + 1)?;
    Ok((build::parameter(of_type, Some(name)), from + 2))
}

/// [ params ] ")"
fn closed_parameters(
    alloc: Global,
    tokens: &[Token],
    from: usize,
) -> Result<(Vec<Parameter>, usize), ParseFault>
    requires { from ≤ length tokens.now }
    ensures ok { IfOk result
        (λ read. IsPart closed_parameters Anything tokens.now from read.0.items read.1) }
    ensures fault { IfErr result
        (λ fault. IsLacking closed_parameters Anything tokens.now from fault) }
{
    if is_sign(tokens, from, Sign::CloseParen) {
        return Ok((Vec::new(alloc), from + 1));
    }
    let (first, mut at) = parameter(alloc, tokens, from)?;
    let mut parameters = vec![in alloc; first]?;
    while is_sign(tokens, at, Sign::Comma) {
        let (next, end) = parameter(alloc, tokens, at + 1)?;
        parameters.push(next)?;
        at = end;
    }
    expect(tokens, at, Sign::CloseParen)?;
    Ok((parameters, at + 1))
}

/// [ "(" [ params ] ")" ] ";"
fn declared_parameters(
    alloc: Global,
    tokens: &[Token],
    from: usize,
) -> Result<(Vec<Parameter>, usize), ParseFault>
    requires { from ≤ length tokens.now }
    ensures ok { IfOk result
        (λ read. IsPart declared_parameters Anything tokens.now from read.0.items read.1) }
    ensures fault { IfErr result
        (λ fault. IsLacking declared_parameters Anything tokens.now from fault) }
{
    if !is_sign(tokens, from, Sign::OpenParen) {
        expect(tokens, from, Sign::Semicolon)?;
        return Ok((Vec::new(alloc), from + 1));
    }
    let (parameters, end) = closed_parameters(alloc, tokens, from + 1)?;
    expect(tokens, end, Sign::Semicolon)?;
    Ok((parameters, end + 1))
}

/// ID [ "(" [ params ] ")" ] ";"
fn signature(
    alloc: Global,
    tokens: &[Token],
    from: usize,
) -> Result<(Identifier, Vec<Parameter>, usize), ParseFault>
    requires { from ≤ length tokens.now }
    ensures ok { IfOk result
        (λ read. IsPart signature Anything tokens.now from (read.0, read.1.items) read.2) }
    ensures fault { IfErr result (λ fault. IsLacking signature Anything tokens.now from fault) }
{
    let name = name_at(alloc, tokens, from)?;
    let (parameters, end) = declared_parameters(alloc, tokens, from + 1)?;
    Ok((name, parameters, end))
}

/// A declaration that begins with this type.
fn typed(
    alloc: Global,
    tokens: &[Token],
    from: usize,
    answer: TypeName,
) -> Result<(Declaration, usize), ParseFault>
    requires place { from < length tokens.now }
    requires begins { start_at tokens.now from ≡ starts.Type answer }
    ensures ok { IfOk result
        (λ read. IsPart declaration Anything tokens.now from (declaration_data read.0) read.1) }
    ensures onward { IfOk result (λ read. from < read.1) }
    ensures fault { IfErr result (λ fault. IsLacking declaration Anything tokens.now from fault) }
{
    match start_at(tokens, from + 1) {
        Start::Command => {
            let (name, parameters, end) = signature(alloc, tokens, from + 2)?;
            Ok((build::command(Some(answer), name, parameters), end))
        }
        Start::Lookup => {
            let (name, parameters, end) = signature(alloc, tokens, from + 2)?;
            Ok((build::lookup(answer, name, parameters), end))
        }
        _ => Err(ParseFault::SyntaxFault { token: from + 1 }),
    }
}

/// [ type ] "Command" signature, or type "Lookup" signature
fn declaration(
    alloc: Global,
    tokens: &[Token],
    from: usize,
) -> Result<(Declaration, usize), ParseFault>
    requires { from ≤ length tokens.now }
    ensures ok { IfOk result
        (λ read. IsPart declaration Anything tokens.now from (declaration_data read.0) read.1) }
    ensures onward { IfOk result (λ read. from < read.1) }
    ensures fault { IfErr result (λ fault. IsLacking declaration Anything tokens.now from fault) }
{
    match start_at(tokens, from) {
        Start::Command => {
            let (name, parameters, end) = signature(alloc, tokens, from + 1)?;
            Ok((build::command(None, name, parameters), end))
        }
        Start::Type(answer) => typed(alloc, tokens, from, answer),
        _ => Err(ParseFault::SyntaxFault { token: from }),
    }
}

/// { global }
pub(crate) fn declarations(
    alloc: Global,
    tokens: &[Token],
) -> Result<(Vec<Declaration>, usize), ParseFault>
    ensures ok { IfOk result (λ read.
        IsPart every_declaration NoDeclaration tokens.now 0 (map declaration_data read.0.items) read.1) }
    ensures fault { IfErr result
        (λ fault. IsLacking every_declaration NoDeclaration tokens.now 0 fault) }
{
    let mut declarations = Vec::new(alloc);
    let mut at = 0;
    while start_at(tokens, at).is_declaration() {
        let (declaration, end) = declaration(alloc, tokens, at)?;
        declarations.push(declaration)?;
        at = end;
    }
    Ok((declarations, at))
}
