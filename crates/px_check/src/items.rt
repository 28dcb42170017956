// What a block's items are at fault for.
ghost use Rattle.std.specs.Prelude.{◌≡◌, ◌++◌, map, option_map, IfOk, OnOk};
ghost use Rattle.std.specs.List.{flat_map};
ghost use Rattle.px_syntax.specs.Block.{variable_data, initial_data, item_data};
ghost use Rattle.px_syntax.specs.BlockFaults.{literal_fault, listed_count, is_too_large, initial_faults, variable_faults, identifiers_in, item_faults, items_faults};
ghost use Rattle.px_syntax.specs.ValueType.{named_type};
ghost use Rattle.px_check.specs.Found.{noted};

use crate::found::{Found, Misfit};
use crate::once::note_repeated;
use crate::repeats::note_redeclared;
use crate::scope::Scope;
use crate::types::{Allowed, literal_type, named_type};
use px_syntax::{
    FaultKind, Identifier, Initial, Item, ListedLiteral, Literal, TypeName, ValueType, Variable,
};
use px_value::NoMemory;
use std::alloc::Global;

/// The most elements of an array.
pub const ELEMENT_LIMIT: u32 = 256;

#[tactic(auto, using(crate::proofs::ItemWalks::allowed_alone))]
fn note_literal(of_type: TypeName, value: &Literal, token: usize, found: &mut Found)
    ensures { found.new ≡ noted found.old (literal_fault (named_type of_type) value.now token) }
{
    let misfit = Misfit {
        wanted: Allowed::Only(named_type(of_type)),
        given: literal_type(value),
    };
    found.note_misfit_where(!misfit.wanted.fits(misfit.given), misfit, token);
}

fn note_listed(of_type: TypeName, values: &[ListedLiteral], found: &mut Found)
    ensures { found.new ≡ noted found.old
        (flat_map (λ listed. literal_fault (named_type of_type) listed.value listed.token) values.now) }
{
    for listed in values {
        note_literal(of_type, &listed.value, listed.token, found);
    }
}

fn note_initial(of_type: TypeName, is_array: bool, initial: &Initial, found: &mut Found)
    ensures { found.new ≡ noted found.old (initial_faults (named_type of_type) is_array (initial_data initial.now)) }
{
    match initial {
        Initial::Value { value, token } if !is_array => note_literal(of_type, value, *token, found),
        Initial::List { values, .. } if is_array => note_listed(of_type, values, found),
        Initial::Value { token, .. } | Initial::List { token, .. } => {
            found.note_where(true, FaultKind::TypeDiffers, *token);
        }
    }
}

// How many values an initial value lists.
fn listed_count(initial: &Option<Initial>) -> usize
    ensures { result ≡ listed_count (option_map initial_data initial.now) }
{
    match initial {
        Some(Initial::List { values, .. }) => values.len(),
        _ => 0,
    }
}

fn is_too_large(variable: &Variable) -> bool
    ensures { result ≡ is_too_large (variable_data variable.now) }
{
    match variable.size {
        None => false,
        Some(size) => {
            size < 1 || ELEMENT_LIMIT < size || (size as usize) < listed_count(&variable.initial)
        }
    }
}

#[tactic(auto, using(crate::proofs::Noting::noting))]
fn note_variable(of_type: TypeName, variable: &Variable, found: &mut Found)
    ensures { found.new ≡ noted found.old (variable_faults (named_type of_type) (variable_data variable.now)) }
{
    found.note_where(
        is_too_large(variable),
        FaultKind::TooLarge,
        variable.name.token,
    );
    if let Some(initial) = &variable.initial {
        note_initial(of_type, variable.size.is_some(), initial, found);
    }
}

fn note_variables(of_type: TypeName, variables: &[Variable], found: &mut Found)
    ensures { found.new ≡ noted found.old
        (flat_map (variable_faults (named_type of_type)) (map variable_data variables.now)) }
{
    for variable in variables {
        note_variable(of_type, variable, found);
    }
}

fn push_names<'a>(
    variables: &'a [Variable],
    identifiers: &mut Vec<&'a Identifier>,
) -> Result<(), NoMemory>
    ensures { OnOk result (map (λ identifier. identifier.now) identifiers.new.items
        ≡ map (λ identifier. identifier.now) identifiers.old.items
        ++ map (λ variable. variable.name) (map variable_data variables.now)) }
{
    for variable in variables {
        identifiers.push(&variable.name)?;
    }
    Ok(())
}

/// The identifiers that items declare, in their order.
fn identifiers_in(alloc: Global, items: &[Item]) -> Result<Vec<&Identifier>, NoMemory>
    ensures { IfOk result (λ identifiers. map (λ identifier. identifier.now) identifiers.items
        ≡ flat_map identifiers_in (map item_data items.now)) }
{
    let mut identifiers = Vec::new(alloc);
    for item in items {
        if let Item::Variables { variables, .. } = item {
            push_names(variables, &mut identifiers)?;
        }
    }
    Ok(identifiers)
}

impl<'a> Scope<'a> {
    #[tactic(auto, using(crate::proofs::Noting::noting))]
    fn item(&self, item: &Item, found: &mut Found)
        ensures { found.new ≡ noted found.old (item_faults self.now (item_data item.now)) }
    {
        match item {
            Item::Variables { of_type, variables } => {
                note_variables(*of_type, variables, found);
            }
            Item::Condition { test, .. } => {
                self.expression(Allowed::Only(ValueType::Boolean), test, found);
            }
            Item::Priority { .. } => {}
        }
    }

    fn each_item(&self, items: &[Item], found: &mut Found)
        ensures { found.new ≡ noted found.old (flat_map (item_faults self.now) (map item_data items.now)) }
    {
        for item in items {
            self.item(item, found);
        }
    }

    /// Notes what the items of a block are at fault for, inside of it.
    pub fn items(&self, alloc: Global, items: &[Item], found: &mut Found) -> Result<(), NoMemory>
        ensures { OnOk result (found.new ≡ noted found.old (items_faults self.now (map item_data items.now))) }
    {
        note_redeclared(alloc, &identifiers_in(alloc, items)?, found)?;
        note_repeated(alloc, items, found)?;
        self.each_item(items, found);
        Ok(())
    }
}
