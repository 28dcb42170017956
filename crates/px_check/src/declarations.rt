// What the declarations before the root are at fault for.
ghost use Rattle.std.specs.Prelude.{◌≡◌, ◌++◌, map, length, IfOk, OnOk};
ghost use Rattle.std.specs.List.{flat_map};
ghost use Rattle.px_syntax.specs.ExprFaults.{over_eight};
ghost use Rattle.px_syntax.specs.Plan.{declaration_data};
ghost use Rattle.px_syntax.specs.PlanFaults.{global_faults};
ghost use Rattle.px_syntax.specs.Scope.{commands_in, lookups_in};
ghost use Rattle.px_check.specs.Found.{noted};
ghost use Rattle.px_check.specs.Globals.{callable_data};

use crate::calls::ARGUMENT_LIMIT;
use crate::found::Found;
use crate::globals::{Callable, Sort, callables};
use crate::repeats::note_redeclared;
use px_syntax::{Declaration, FaultKind, Identifier};
use px_value::NoMemory;
use std::alloc::Global;

// Notes a second one of a name, and more parameters than there may be.
fn note_callables(alloc: Global, callables: &[Callable], found: &mut Found) -> Result<(), NoMemory>
    ensures { OnOk result (found.new ≡ noted found.old (global_faults (map callable_data callables.now))) }
{
    note_redeclared(alloc, &names_of(alloc, callables)?, found)?;
    note_parameters(callables, found);
    Ok(())
}

fn names_of<'a>(alloc: Global, callables: &[Callable<'a>]) -> Result<Vec<&'a Identifier>, NoMemory>
    ensures { IfOk result (λ names. map (λ name. name.now) names.items
        ≡ map (λ global. global.name) (map callable_data callables.now)) }
{
    let mut names = Vec::new(alloc);
    for callable in callables {
        names.push(callable.name)?;
    }
    Ok(names)
}

fn note_parameters(callables: &[Callable], found: &mut Found)
    ensures { found.new ≡ noted found.old (flat_map (λ global. over_eight (length global.parameters) global.name.token)
        (map callable_data callables.now)) }
{
    for callable in callables {
        let is_over = ARGUMENT_LIMIT < callable.parameters.len();
        found.note_where(is_over, FaultKind::TooLarge, callable.name.token);
    }
}

/// Notes what the declarations before the root are at fault for.
pub fn note_declarations(
    alloc: Global,
    declarations: &[Declaration],
    found: &mut Found,
) -> Result<(), NoMemory>
    ensures { OnOk result (found.new ≡ noted found.old
        (global_faults (flat_map commands_in (map declaration_data declarations.now))
        ++ global_faults (flat_map lookups_in (map declaration_data declarations.now)))) }
{
    note_callables(
        alloc,
        &callables(alloc, Sort::Command, declarations)?,
        found,
    )?;
    note_callables(alloc, &callables(alloc, Sort::Lookup, declarations)?, found)
}
