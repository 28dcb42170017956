// The line that gives the reason of a plan that is refused. Want of memory is no refusal, and its line is never printed.
ghost use Rattle.std.specs.Prelude.{◌≡◌, ◌++◌, IfOk, codes};
ghost use Rattle.std.specs.String.{string_bytes};
ghost use Rattle.px_sem.specs.Text.{line};
ghost use Rattle.px_ending.specs.Ending.{plan_at_fault};
ghost use Rattle.px_ending.specs.PlanRefusal.{lex_reason, parse_reason, check_reason, expand_reason};

use px_lex::LexFault;
use px_syntax::{CheckFault, ExpandFault, ParseFault, PlanFault};
use px_value::NoMemory;
use std::alloc::Global;

/// The line for the first fault that a stage has found.
pub fn plan_refusal(alloc: Global, fault: &PlanFault) -> Result<String, NoMemory>
    ensures { IfOk result (λ text. string_bytes text ≡ (plan_at_fault fault.now).text) }
{
    match fault {
        PlanFault::NotText { at } => format!(in alloc; "plan refused: not text at byte {at}\n"),
        PlanFault::Lex(fault) => no_tokens(alloc, fault),
        PlanFault::Parse(fault) => no_tree(alloc, fault),
        PlanFault::Check(fault) => faulty_tree(alloc, fault),
        PlanFault::Expand(fault) => too_large(alloc, fault),
        PlanFault::NoMemory => format!(in alloc; "plan refused: out of memory\n"),
    }
}

fn no_tokens(alloc: Global, fault: &LexFault) -> Result<String, NoMemory>
    ensures { IfOk result (λ text. string_bytes text ≡ line (codes "plan refused: " ++ lex_reason fault.now)) }
{
    match fault {
        LexFault::Bad { at } => format!(in alloc; "plan refused: byte {at}\n"),
        LexFault::Real { at } => format!(in alloc; "plan refused: real number at byte {at}\n"),
        LexFault::TooLong { at } => format!(in alloc; "plan refused: too long at byte {at}\n"),
        LexFault::NoMemory => format!(in alloc; "plan refused: out of memory\n"),
    }
}

fn no_tree(alloc: Global, fault: &ParseFault) -> Result<String, NoMemory>
    ensures { IfOk result (λ text. string_bytes text ≡ line (codes "plan refused: " ++ parse_reason fault.now)) }
{
    match fault {
        ParseFault::Deep { token } => format!(in alloc; "plan refused: deep at token {token}\n"),
        ParseFault::SyntaxFault { token } => format!(in alloc;
            "plan refused: syntax at token {token}\n"
        ),
        ParseFault::NoMemory => format!(in alloc; "plan refused: out of memory\n"),
    }
}

fn faulty_tree(alloc: Global, fault: &CheckFault) -> Result<String, NoMemory>
    ensures { IfOk result (λ text. string_bytes text ≡ line (codes "plan refused: " ++ check_reason fault.now)) }
{
    match fault {
        CheckFault::Fault { kind, token } => format!(in alloc;
            "plan refused: check {kind} at token {token}\n"
        ),
        CheckFault::NoMemory => format!(in alloc; "plan refused: out of memory\n"),
    }
}

fn too_large(alloc: Global, fault: &ExpandFault) -> Result<String, NoMemory>
    ensures { IfOk result (λ text. string_bytes text ≡ line (codes "plan refused: " ++ expand_reason fault.now)) }
{
    match fault {
        ExpandFault::TooMany { nodes } => format!(in alloc;
            "plan refused: too many nodes {nodes}\n"
        ),
        ExpandFault::NoMemory => format!(in alloc; "plan refused: out of memory\n"),
    }
}
