// A whole plan.
ghost use Rattle.std.specs.Prelude.{◌≡◌, ◌≤◌, [], length, IfOk, IfErr};
ghost use Rattle.px_syntax.specs.Depth.{too_deep};
ghost use Rattle.px_syntax.specs.Plan.{tree_of_surface};
ghost use Rattle.px_plan_parse.specs.Verdict.{IsNoPlan, IsPlan, IsRefused};

use crate::block::{block, label};
use crate::build;
use crate::depth::first_too_deep;
use crate::global::declarations;
use px_lex::Token;
use px_syntax::{ParseFault, Surface};
use std::alloc::Global;

/// The plan that tokens spell, which is then the only one (PLEXIL reference manual, "Plexil Syntax").
///
/// `Deep` comes exactly where a token is too deep, and names the first such. `SyntaxFault` comes exactly where none is
/// and the tokens spell no plan. It names the first token such that no plan begins with those up to and including it, or
/// the number of tokens where the end comes too early.
pub fn parse(alloc: Global, tokens: &[Token]) -> Result<Surface, ParseFault>
    ensures ok { IfOk result (λ surface. IsPlan tokens.now (tree_of_surface surface)) }
    ensures shallow { IfOk result (λ surface. too_deep tokens.now ≡ []) }
    ensures fault { IfErr result (λ fault. IsRefused tokens.now fault) }
{
    match first_too_deep(tokens) {
        Some(token) => Err(ParseFault::Deep { token }),
        None => whole(alloc, tokens),
    }
}

/// { global } [ ID ":" ] block, up to the last token.
fn whole(alloc: Global, tokens: &[Token]) -> Result<Surface, ParseFault>
    requires { too_deep tokens.now ≡ [] }
    ensures ok { IfOk result (λ surface. IsPlan tokens.now (tree_of_surface surface)) }
    ensures fault { IfErr result (λ fault. IsNoPlan tokens.now fault) }
{
    let (declarations, behind_declarations) = declarations(alloc, tokens)?;
    let (label, at) = label(alloc, tokens, behind_declarations)?;
    let (root, end) = block(alloc, tokens, at)?;
    if end < tokens.len() {
        return Err(ParseFault::SyntaxFault { token: end });
    }
    Ok(build::surface(declarations, label, root))
}
