// A whole plan: its declarations, and its root.
ghost use Rattle.std.specs.Prelude.{◌≡◌, ◌++◌, [], codes, map, IfOk, OnOk};
ghost use Rattle.std.specs.List.{flat_map, join_by};
ghost use Rattle.px_syntax.specs.Plan.{declaration_data, tree_of_surface};
ghost use Rattle.px_print.specs.BlockLayout.{line};
ghost use Rattle.px_print.specs.Layout.{answer_text, declaration_text, layout, name_text, parameter_text, parameters_text};

use crate::action::push_label;
use crate::append::push_all;
use crate::block::push_block;
use crate::leaf::push_name;
use crate::word::type_word;
use px_syntax::{Declaration, Identifier, Parameter, Surface, TypeName};
use px_value::NoMemory;
use std::alloc::Global;

/// Lays a plan's tree out as text, with a line for each declaration, item and simple action (docs/LANGUAGE.md,
/// "Layout").
pub fn print(alloc: Global, tree: &Surface) -> Result<Vec<u8>, NoMemory>
    ensures { IfOk result (λ bytes. bytes.items ≡ layout (tree_of_surface tree.now)) }
{
    let mut out = Vec::new(alloc);
    push_declarations(&tree.declarations, &mut out)?;
    push_label(&tree.label, &mut out)?;
    push_block(&tree.root, &mut Vec::new(alloc), &mut out)?;
    push_all(&mut out, &["\n"])?;
    Ok(out)
}

fn push_declarations(declarations: &[Declaration], out: &mut Vec<u8>) -> Result<(), NoMemory>
    ensures { OnOk result (out.new.items ≡ out.old.items
        ++ flat_map (λ declaration. line [] (declaration_text declaration)) (map declaration_data declarations.now)) }
{
    for declaration in declarations {
        push_declaration(declaration, out)?;
        push_all(out, &["\n"])?;
    }
    Ok(())
}

fn push_declaration(declaration: &Declaration, out: &mut Vec<u8>) -> Result<(), NoMemory>
    ensures { OnOk result (out.new.items ≡ out.old.items ++ declaration_text (declaration_data declaration.now)) }
{
    match declaration {
        Declaration::Command {
            answer,
            name,
            parameters,
        } => {
            push_answer(*answer, out)?;
            push_all(out, &["Command ", name.name.as_str()])?;
            push_parameters(parameters, out)?;
            push_all(out, &[";"])
        }
        Declaration::Lookup {
            answer,
            name,
            parameters,
        } => {
            push_all(out, &[type_word(*answer), " Lookup "])?;
            push_name(name, out)?;
            push_parameters(parameters, out)?;
            push_all(out, &[";"])
        }
    }
}

fn push_answer(answer: Option<TypeName>, out: &mut Vec<u8>) -> Result<(), NoMemory>
    ensures { OnOk result (out.new.items ≡ out.old.items ++ answer_text answer) }
{
    match answer {
        None => Ok(()),
        Some(of_type) => push_all(out, &[type_word(of_type), " "]),
    }
}

/// Appends parameters in parentheses, where there are any.
fn push_parameters(parameters: &[Parameter], out: &mut Vec<u8>) -> Result<(), NoMemory>
    ensures { OnOk result (out.new.items ≡ out.old.items ++ parameters_text parameters.now) }
{
    match parameters {
        [] => Ok(()),
        [first, rest @ ..] => {
            push_all(out, &["("])?;
            push_parameter(first, out)?;
            push_further(rest, out)?;
            push_all(out, &[")"])
        }
    }
}

/// Appends parameters, each behind a comma.
fn push_further(parameters: &[Parameter], out: &mut Vec<u8>) -> Result<(), NoMemory>
    ensures { OnOk result (out.new.items
        ≡ out.old.items ++ flat_map (λ parameter. codes ", " ++ parameter_text parameter) parameters.now) }
{
    for parameter in parameters {
        push_all(out, &[", "])?;
        push_parameter(parameter, out)?;
    }
    Ok(())
}

fn push_parameter(parameter: &Parameter, out: &mut Vec<u8>) -> Result<(), NoMemory>
    ensures { OnOk result (out.new.items ≡ out.old.items ++ parameter_text parameter.now) }
{
    push_all(out, &[type_word(parameter.of_type)])?;
    push_name_behind(&parameter.name, out)
}

/// Appends a name behind a blank, where there is one.
fn push_name_behind(name: &Option<Identifier>, out: &mut Vec<u8>) -> Result<(), NoMemory>
    ensures { OnOk result (out.new.items ≡ out.old.items ++ name_text name.now) }
{
    match name {
        None => Ok(()),
        Some(name) => push_all(out, &[" ", name.name.as_str()]),
    }
}
