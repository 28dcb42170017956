// Declarations before the root, and the items of a block.
use super::expression::push_expr;
use super::literal::{push_all, push_literal, push_name, push_word};
use super::word::{condition_word, type_word};
use itoa::Buffer;
use px_syntax::{Declaration, Initial, Item, Parameter, Variable};
use px_value::NoMemory;

pub(super) fn push_declaration(
    declaration: &Declaration,
    out: &mut String,
) -> Result<(), NoMemory> {
    match declaration {
        Declaration::Command {
            answer,
            name,
            parameters,
        } => {
            if let Some(answer) = answer {
                push_all(&[type_word(*answer), " "], out)?;
            }
            push_name("Command ", name, "(", out)?;
            push_parameters(parameters, out)
        }
        Declaration::Lookup {
            answer,
            name,
            parameters,
        } => {
            out.push_str(type_word(*answer))?;
            push_name(" Lookup ", name, "(", out)?;
            push_parameters(parameters, out)
        }
    }
}

// Parameters behind their bracket.
fn push_parameters(parameters: &[Parameter], out: &mut String) -> Result<(), NoMemory> {
    for parameter in parameters {
        push_parameter(parameter, out)?;
    }
    out.push_str(");")
}

fn push_parameter(parameter: &Parameter, out: &mut String) -> Result<(), NoMemory> {
    out.push_str(type_word(parameter.of_type))?;
    match &parameter.name {
        Some(name) => push_name(" ", name, ",", out),
        None => out.push_str(","),
    }
}

pub(super) fn push_item(item: &Item, out: &mut String) -> Result<(), NoMemory> {
    match item {
        Item::Variables { of_type, variables } => {
            out.push_str(type_word(*of_type))?;
            for variable in variables {
                push_variable(variable, out)?;
            }
            Ok(())
        }
        Item::Condition {
            condition,
            token,
            test,
        } => {
            push_word("", condition_word(*condition), *token, " ", out)?;
            push_expr(test, out)
        }
        Item::Priority { token, priority } => {
            push_word("", "Priority", *token, " ", out)?;
            out.push_str(Buffer::new().format(*priority))
        }
    }
}

fn push_variable(variable: &Variable, out: &mut String) -> Result<(), NoMemory> {
    push_name(" ", &variable.name, "", out)?;
    if let Some(size) = variable.size {
        push_all(&["[", Buffer::new().format(size), "]"], out)?;
    }
    match &variable.initial {
        Some(initial) => push_initial(initial, out),
        None => Ok(()),
    }
}

fn push_initial(initial: &Initial, out: &mut String) -> Result<(), NoMemory> {
    match initial {
        Initial::Value { value, token } => push_literal("=", value, *token, out),
        Initial::List { values, token } => {
            push_word("", "=#", *token, "", out)?;
            for value in values {
                push_literal(" ", &value.value, value.token, out)?;
            }
            out.push_str(")")
        }
    }
}
