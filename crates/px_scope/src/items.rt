// What the items of a block give: conditions, the priority and each variable.
ghost use Rattle.std.specs.Prelude.{◌≡◌, ◌<◌, length, map, option_map, IfOk, OnOk, ◌++◌};
ghost use Rattle.px_syntax.specs.Block.{initial_data, item_data, variable_data as text_variable};
ghost use Rattle.px_core.specs.Plan.{variable_data};
ghost use Rattle.px_scope.specs.Items.{first_values, given_for, priority_of, var_kind, variable_of, variables_in, variables_of};
ghost use Rattle.px_core.specs.Expr.{term_in};

use crate::resolve::resolved;
use crate::scope::Scope;
use crate::words::literal_value;
use px_core::{DEFAULT_PRIORITY, Expr, VarKind, Variable};
use px_syntax::{Condition, Initial, Item, TypeName};
use px_value::{NoMemory, Value};
use std::alloc::Global;

/// What the items give for a condition.
pub fn given_for(
    alloc: Global,
    scope: &Scope,
    condition: Condition,
    mut items: &[Item],
) -> Result<Option<Box<Expr>>, NoMemory>
    requires { 0 < length scope.now }
    ensures { IfOk result
        (λ made. option_map term_in made ≡ given_for scope.now condition (map item_data items.entry.now)) }
{
    while let Some((item, others)) = items.split_first() {
        if let Item::Condition {
            condition: given,
            test,
            ..
        } = item
        {
            if *given == condition {
                return Ok(Some(resolved(alloc, scope, test)?));
            }
        }
        items = others;
    }
    Ok(None)
}

/// The priority that the items give, or the default.
pub fn priority_of(mut items: &[Item]) -> u32
    ensures { result ≡ priority_of (map item_data items.entry.now) }
{
    while let Some((item, others)) = items.split_first() {
        if let Item::Priority { priority, .. } = item {
            return *priority;
        }
        items = others;
    }
    DEFAULT_PRIORITY
}

/// The variables that the items declare, in the order of the text.
pub fn variables_of(alloc: Global, items: &[Item]) -> Result<Vec<Variable>, NoMemory>
    ensures { IfOk result
        (λ made. map variable_data made.items ≡ variables_of (map item_data items.now)) }
{
    let mut made = Vec::new(alloc);
    for item in items {
        add_variables(alloc, item, &mut made)?;
    }
    Ok(made)
}

fn add_variables(alloc: Global, item: &Item, made: &mut Vec<Variable>) -> Result<(), NoMemory>
    ensures { OnOk result (map variable_data made.new.items
        ≡ map variable_data made.old.items ++ variables_in (item_data item.now)) }
{
    if let Item::Variables { of_type, variables } = item {
        for variable in variables {
            made.push(variable_of(alloc, *of_type, variable)?)?;
        }
    }
    Ok(())
}

/// A variable that an item declares.
fn variable_of(
    alloc: Global,
    of_type: TypeName,
    variable: &px_syntax::Variable,
) -> Result<Variable, NoMemory>
    ensures { IfOk result (λ made. variable_data made ≡ variable_of of_type (text_variable variable.now)) }
{
    Ok(Variable {
        name: variable.name.name.copy(alloc)?,
        kind: var_kind(of_type),
        size: variable.size,
        init: match &variable.initial {
            Some(initial) => first_values(alloc, initial)?,
            None => Vec::new(alloc),
        },
    })
}

/// The values at first.
fn first_values(alloc: Global, initial: &Initial) -> Result<Vec<Value>, NoMemory>
    ensures { IfOk result (λ made. made.items ≡ first_values (initial_data initial.now)) }
{
    match initial {
        Initial::Value { value, .. } => {
            let value = literal_value(alloc, value)?;
            Ok(vec![in alloc; value]?)
        }
        Initial::List { values, .. } => {
            let mut made = Vec::with_capacity(alloc, values.len())?;
            for listed in values {
                made.push(literal_value(alloc, &listed.value)?)?;
            }
            Ok(made)
        }
    }
}

fn var_kind(of_type: TypeName) -> VarKind
    ensures { result ≡ var_kind of_type }
{
    match of_type {
        TypeName::Integer => VarKind::Integer,
        TypeName::Boolean => VarKind::Boolean,
        TypeName::String => VarKind::Text,
    }
}
