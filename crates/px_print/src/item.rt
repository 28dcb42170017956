// The items of a block.
ghost use Rattle.std.specs.Prelude.{◌≡◌, ◌++◌, codes, map, option_map, OnOk};
ghost use Rattle.std.specs.List.{flat_map, join_by};
ghost use Rattle.px_value.specs.Text.{bracketed};
ghost use Rattle.px_syntax.specs.Block.{initial_data, item_data, variable_data};
ghost use Rattle.px_print.specs.ExprLayout.{literal_text};
ghost use Rattle.px_print.specs.BlockLayout.{first_value_text, initial_text, item_text, variable_text};

use crate::append::push_all;
use crate::expression::push_expression;
use crate::leaf::{push_literal, push_name};
use crate::word::{condition_word, type_word};
use itoa::Buffer;
use px_syntax::{Initial, Item, ListedLiteral, Variable};
use px_value::NoMemory;

/// Appends an item, without the margin before it and the end of its line.
pub(crate) fn push_item(item: &Item, out: &mut Vec<u8>) -> Result<(), NoMemory>
    ensures { OnOk result (out.new.items ≡ out.old.items ++ item_text (item_data item.now)) }
{
    match item {
        Item::Variables { of_type, variables } => {
            push_all(out, &[type_word(*of_type), " "])?;
            push_variables(variables, out)?;
            push_all(out, &[";"])
        }
        Item::Condition {
            condition,
            test,
            ..
        } => {
            push_all(out, &[condition_word(*condition), " "])?;
            push_expression(test, out)?;
            push_all(out, &[";"])
        }
        Item::Priority { priority, .. } => {
            push_all(out, &["Priority ", Buffer::new().format(*priority), ";"])
        }
    }
}

fn push_variables(variables: &[Variable], out: &mut Vec<u8>) -> Result<(), NoMemory>
    ensures { OnOk result (out.new.items
        ≡ out.old.items ++ join_by variable_text (codes ", ") (map variable_data variables.now)) }
{
    match variables {
        [] => Ok(()),
        [first, rest @ ..] => {
            push_variable(first, out)?;
            push_further(rest, out)
        }
    }
}

/// Appends variables, each behind a comma.
fn push_further(variables: &[Variable], out: &mut Vec<u8>) -> Result<(), NoMemory>
    ensures { OnOk result (out.new.items
        ≡ out.old.items ++ flat_map (λ variable. codes ", " ++ variable_text variable) (map variable_data variables.now)) }
{
    for variable in variables {
        push_all(out, &[", "])?;
        push_variable(variable, out)?;
    }
    Ok(())
}

fn push_variable(variable: &Variable, out: &mut Vec<u8>) -> Result<(), NoMemory>
    ensures { OnOk result (out.new.items ≡ out.old.items ++ variable_text (variable_data variable.now)) }
{
    push_name(&variable.name, out)?;
    push_size(variable.size, out)?;
    push_first_value(&variable.initial, out)
}

fn push_size(size: Option<u32>, out: &mut Vec<u8>) -> Result<(), NoMemory>
    ensures { OnOk result (out.new.items ≡ out.old.items ++ bracketed size) }
{
    match size {
        None => Ok(()),
        Some(size) => push_all(out, &["[", Buffer::new().format(size), "]"]),
    }
}

fn push_first_value(initial: &Option<Initial>, out: &mut Vec<u8>) -> Result<(), NoMemory>
    ensures { OnOk result (out.new.items ≡ out.old.items ++ first_value_text (option_map initial_data initial.now)) }
{
    match initial {
        None => Ok(()),
        Some(initial) => {
            push_all(out, &[" = "])?;
            push_initial(initial, out)
        }
    }
}

fn push_initial(initial: &Initial, out: &mut Vec<u8>) -> Result<(), NoMemory>
    ensures { OnOk result (out.new.items ≡ out.old.items ++ initial_text (initial_data initial.now)) }
{
    match initial {
        Initial::Value { value, .. } => push_literal(value, out),
        Initial::List { values, .. } => {
            push_all(out, &["#("])?;
            push_listed(values, out)?;
            push_all(out, &[")"])
        }
    }
}

fn push_listed(values: &[ListedLiteral], out: &mut Vec<u8>) -> Result<(), NoMemory>
    ensures { OnOk result (out.new.items
        ≡ out.old.items ++ join_by (λ listed. literal_text listed.value) (codes " ") values.now) }
{
    match values {
        [] => Ok(()),
        [first, rest @ ..] => {
            push_literal(&first.value, out)?;
            push_further_listed(rest, out)
        }
    }
}

/// Appends literals, each behind a blank.
fn push_further_listed(values: &[ListedLiteral], out: &mut Vec<u8>) -> Result<(), NoMemory>
    ensures { OnOk result (out.new.items
        ≡ out.old.items ++ flat_map (λ listed. codes " " ++ literal_text listed.value) values.now) }
{
    for listed in values {
        push_all(out, &[" "])?;
        push_literal(&listed.value, out)?;
    }
    Ok(())
}
