// The plan of a text, and its tree.
ghost use Rattle.std.specs.Prelude.{◌≡◌, ℕ, ◌≤◌, true, false, List, [], length, IfOk, IfErr, OnOk, IsTrue};
ghost use Rattle.std.specs.Str.{is_utf8};
ghost use Rattle.px_core.specs.Fit.{IsFit};
ghost use Rattle.px_core.specs.Plan.{Tree, count_of, tree_of};
ghost use Rattle.px_lex.specs.Lexer.{FirstFault, Splits};
ghost use Rattle.px_lex.specs.declared.token.Token.{Token as TokenData};
ghost use Rattle.px_plan_parse.specs.Verdict.{IsRefused as IsNoTree};
ghost use Rattle.px_syntax.specs.Plan.{tree_of_surface};
ghost use Rattle.px_syntax.specs.PlanFaults.{faults};
ghost use Rattle.px_expand.specs.Bound.{is_too_large};
ghost use Rattle.px_expand.specs.Core.{core};
ghost use Rattle.px_expand.specs.Typed.{has_typed_values};
ghost use Rattle.px_expand.specs.Verdict.{IsChecked, IsExpanded};
ghost use Rattle.px_compile.specs.Compiled.{AllRefused, IsCompiled, IsRefused, IsSpelled, IsSplit};

use px_check::check;
use px_core::Plan;
use px_expand::{check_size, expand};
use px_lex::{LexFault, Token, lex};
use px_plan_parse::parse;
use px_syntax::{CheckFault, ExpandFault, ParseFault, PlanFault, Surface};
use std::alloc::Global;
use std::str::from_utf8;

/// How many bytes the text of a plan may have.
pub const TEXT_LIMIT: usize = 1_048_576;

/// What the bytes of a text spell: a tree, and the size of its core plan.
#[derive(Drop)]
pub struct Compiled {
    /// The tree.
    pub tree: Surface,
    /// How many nodes its core plan has.
    pub nodes: u32,
}

/// The plan that the bytes of a text spell.
///
/// The bytes are read as UTF-8, then as tokens, then as a tree; then the faults of the tree are looked for, and its core
/// plan is made. The first of these that refuses decides the error.
pub fn compile(alloc: Global, bytes: &[u8]) -> Result<Plan, PlanFault>
    requires { length bytes.now ≤ 1048576 }
    ensures ok { IfOk result (λ plan. IsCompiled bytes.now (tree_of plan)) }
    ensures fit { IfOk result (λ plan. IsFit (tree_of plan)) }
    ensures typed { IfOk result (λ plan. IsTrue (has_typed_values (tree_of plan))) }
    ensures fault { IfErr result (λ fault. IsRefused bytes.now fault) }
{
    let tree = faultless_tree(alloc, bytes)?;
    core_plan(alloc, &tree)
}

/// The tree that the bytes of a text spell, exactly where `compile` gives its plan; else, want of memory apart, the same
/// error. The plan isn't made.
pub fn compile_tree(alloc: Global, bytes: &[u8]) -> Result<Compiled, PlanFault>
    requires { length bytes.now ≤ 1048576 }
    ensures tree { IfOk result (λ made. IsSpelled bytes.now (tree_of_surface made.tree)) }
    ensures plan { IfOk result (λ made. IsCompiled bytes.now (core (tree_of_surface made.tree))) }
    ensures nodes { IfOk result (λ made. made.nodes ≡ count_of (core (tree_of_surface made.tree))) }
    ensures fault { IfErr result (λ fault. IsRefused bytes.now fault) }
{
    let tree = faultless_tree(alloc, bytes)?;
    let nodes = core_size(alloc, &tree)?;
    Ok(Compiled { tree, nodes })
}

// The tree that the bytes of a text spell, where it has no fault.
fn faultless_tree(alloc: Global, bytes: &[u8]) -> Result<Surface, PlanFault>
    ensures spelled { IfOk result (λ tree. IsSpelled bytes.now (tree_of_surface tree)) }
    ensures faultless { IfOk result (λ tree. faults (tree_of_surface tree) ≡ []) }
    ensures fault { IfErr result (λ fault. IsRefused bytes.now fault) }
{
    let text = text_in(bytes)?;
    let tree = tree_in(alloc, text)?;
    look_for_faults(alloc, &tree)?;
    Ok(tree)
}

fn text_in(bytes: &[u8]) -> Result<&str, PlanFault>
    ensures ok { IfOk result (λ text. text.now ≡ bytes.now) }
    ensures fault { IfErr result (λ fault. IsRefused bytes.now fault) }
{
    match from_utf8(bytes) {
        Ok(text) => Ok(text),
        Err(error) => Err(PlanFault::NotText {
            at: error.valid_up_to(),
        }),
    }
}

fn tokens_in(alloc: Global, text: &str) -> Result<Vec<Token>, PlanFault>
    ensures ok { IfOk result (λ tokens. Splits text.now tokens.items) }
    ensures fault { IfErr result (λ fault. IsRefused text.now fault) }
{
    match lex(alloc, text) {
        Ok(tokens) => Ok(tokens),
        Err(fault) => Err(no_tokens(fault)),
    }
}

// The answer where a text has no tokens.
fn no_tokens(fault: LexFault) -> PlanFault
    ensures { (bytes : List ℕ) → is_utf8 bytes ≡ true → FirstFault bytes fault → IsRefused bytes result }
{
    match fault {
        LexFault::NoMemory => PlanFault::NoMemory,
        fault => PlanFault::Lex(fault),
    }
}

fn tree_in(alloc: Global, text: &str) -> Result<Surface, PlanFault>
    ensures ok { IfOk result (λ tree. IsSpelled text.now (tree_of_surface tree)) }
    ensures fault { IfErr result (λ fault. IsRefused text.now fault) }
{
    let tokens = tokens_in(alloc, text)?;
    match parse(alloc, &tokens) {
        Ok(tree) => Ok(tree),
        Err(fault) => Err(no_tree(fault)),
    }
}

// The answer where tokens spell no tree.
fn no_tree(fault: ParseFault) -> PlanFault
    ensures { (bytes : List ℕ) (tokens : List TokenData) → IsSplit bytes tokens → IsNoTree tokens fault
        → IsRefused bytes result }
{
    match fault {
        ParseFault::NoMemory => PlanFault::NoMemory,
        fault => PlanFault::Parse(fault),
    }
}

fn look_for_faults(alloc: Global, tree: &Surface) -> Result<(), PlanFault>
    ensures ok { OnOk result (faults (tree_of_surface tree.now) ≡ []) }
    ensures fault { IfErr result (λ fault. AllRefused (tree_of_surface tree.now) fault) }
{
    match check(alloc, tree) {
        Ok(()) => Ok(()),
        Err(CheckFault::NoMemory) => Err(PlanFault::NoMemory),
        Err(fault) => Err(PlanFault::Check(fault)),
    }
}

fn core_plan(alloc: Global, tree: &Surface) -> Result<Plan, PlanFault>
    requires { IsChecked (tree_of_surface tree.now) }
    ensures ok { IfOk result (λ plan. IsExpanded (tree_of_surface tree.now) plan) }
    ensures fault { IfErr result (λ fault. AllRefused (tree_of_surface tree.now) fault) }
{
    match expand(alloc, tree) {
        Ok(plan) => Ok(plan),
        Err(ExpandFault::NoMemory) => Err(PlanFault::NoMemory),
        Err(fault) => Err(PlanFault::Expand(fault)),
    }
}

fn core_size(alloc: Global, tree: &Surface) -> Result<u32, PlanFault>
    requires { faults (tree_of_surface tree.now) ≡ [] }
    ensures nodes { IfOk result (λ nodes. nodes ≡ count_of (core (tree_of_surface tree.now))) }
    ensures within { OnOk result (is_too_large (core (tree_of_surface tree.now)) ≡ false) }
    ensures fault { IfErr result (λ fault. AllRefused (tree_of_surface tree.now) fault) }
{
    match check_size(alloc, tree) {
        Ok(nodes) => Ok(nodes),
        Err(ExpandFault::NoMemory) => Err(PlanFault::NoMemory),
        Err(fault) => Err(PlanFault::Expand(fault)),
    }
}
