// The commands and lookups that a plan declares before its root.
ghost use Rattle.std.specs.Prelude.{◌≡◌, ◌++◌, map, option_map, IfOk, OnOk};
ghost use Rattle.std.specs.List.{flat_map};
ghost use Rattle.std.specs.Option.{option_to_list};
ghost use Rattle.px_syntax.specs.Plan.{declaration_data};
ghost use Rattle.px_syntax.specs.Scope.{declared, commands_in, lookups_in};
ghost use Rattle.px_check.specs.Globals.{callable_data, callables_data, by_name, declared_as};

use crate::scoped::Scoped;
use px_syntax::{Declaration, Identifier, Parameter, TypeName};
use px_value::{Name, NoMemory};
use std::alloc::Global;
use std::marker::Model;

/// What a declaration declares.
#[derive(Clone, Copy)]
pub enum Sort {
    Command,
    Lookup,
}

/// A declared command or lookup: what it gives, if it gives anything, and its parameters.
#[derive(Clone, Copy)]
pub struct Callable<'a> {
    pub name: &'a Identifier,
    pub answer: Option<TypeName>,
    pub parameters: &'a [Parameter],
}

/// The declarations before the root. Of two of one name and one sort the first counts.
#[derive(Drop)]
pub struct Globals<'a> {
    declarations: &'a [Declaration],
    commands: Scoped<Callable<'a>>,
    lookups: Scoped<Callable<'a>>,
}

impl<'a> Model for Globals<'a> {
    ghost use Rattle.std.specs.Prelude.{◌≡◌, List, map};
    ghost use Rattle.std.specs.List.{flat_map};
    ghost use Rattle.px_syntax.specs.Plan.{DeclarationData, declaration_data};
    ghost use Rattle.px_syntax.specs.Scope.{commands_in, lookups_in};
    ghost use Rattle.px_check.specs.Globals.{callables_data, by_name};

    ghost Value = { List DeclarationData };

    ghost view = { λ globals. map declaration_data globals.declarations.now };

    ghost invariant = { λ globals.
        let declarations = map declaration_data globals.declarations.now in
        (callables_data globals.commands ≡ by_name (flat_map commands_in declarations))
        × (callables_data globals.lookups ≡ by_name (flat_map lookups_in declarations)) };
}

impl<'a> Globals<'a> {
    /// These declarations, found by their names.
    pub fn new(alloc: Global, declarations: &'a [Declaration]) -> Result<Globals<'a>, NoMemory>
        ensures { IfOk result (λ globals. globals ≡ map declaration_data declarations.now) }
    {
        let commands = by_name(alloc, Sort::Command, declarations)?;
        let lookups = by_name(alloc, Sort::Lookup, declarations)?;
        Ok(Globals {
            declarations,
            commands,
            lookups,
        })
    }

    /// The declared command of a name.
    pub fn command(&self, name: &Name) -> Option<Callable<'a>>
        ensures { option_map callable_data result ≡ declared (flat_map commands_in self.now) name.now }
    {
        self.commands.get(name)
    }

    /// The declared lookup of a name.
    pub fn lookup(&self, name: &Name) -> Option<Callable<'a>>
        ensures { option_map callable_data result ≡ declared (flat_map lookups_in self.now) name.now }
    {
        self.lookups.get(name)
    }

    /// The declarations in their order.
    pub fn declarations(&self) -> &'a [Declaration]
        ensures { map declaration_data result.now ≡ self.now }
    {
        self.declarations
    }
}

// What is declared of one sort by its names, of two of one name the first nearest.
fn by_name(
    alloc: Global,
    sort: Sort,
    declarations: &[Declaration],
) -> Result<Scoped<Callable<'_>>, NoMemory>
    ensures { IfOk result (λ named. callables_data named
        ≡ by_name (flat_map (declared_as sort) (map declaration_data declarations.now))) }
{
    let mut callables = callables(alloc, sort, declarations)?;
    let mut named = Scoped::new(alloc);
    while let Some(callable) = callables.pop() {
        named.push(alloc, &callable.name.name, callable)?;
    }
    Ok(named)
}

fn as_callable(sort: Sort, declaration: &Declaration) -> Option<Callable<'_>>
    ensures { option_to_list (option_map callable_data result) ≡ declared_as sort (declaration_data declaration.now) }
{
    match (sort, declaration) {
        (
            Sort::Command,
            Declaration::Command {
                answer,
                name,
                parameters,
            },
        ) => Some(Callable {
            name,
            answer: *answer,
            parameters: parameters.as_slice(),
        }),
        (
            Sort::Lookup,
            Declaration::Lookup {
                answer,
                name,
                parameters,
            },
        ) => Some(Callable {
            name,
            answer: Some(*answer),
            parameters: parameters.as_slice(),
        }),
        _ => None,
    }
}

fn push_some<'a>(
    callables: &mut Vec<Callable<'a>>,
    callable: Option<Callable<'a>>,
) -> Result<(), NoMemory>
    ensures { OnOk result (map callable_data callables.new.items
        ≡ map callable_data callables.old.items ++ option_to_list (option_map callable_data callable.entry)) }
{
    if let Some(callable) = callable {
        callables.push(callable)?;
    }
    Ok(())
}

/// What is declared of one sort, in its order.
pub fn callables(
    alloc: Global,
    sort: Sort,
    declarations: &[Declaration],
) -> Result<Vec<Callable<'_>>, NoMemory>
    ensures { IfOk result (λ callables. map callable_data callables.items
        ≡ flat_map (declared_as sort) (map declaration_data declarations.now)) }
{
    let mut callables = Vec::new(alloc);
    for declaration in declarations {
        push_some(&mut callables, as_callable(sort, declaration))?;
    }
    Ok(callables)
}
