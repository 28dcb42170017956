// Trees as texts: `@` and its number stand behind each word that has a token's.
//
// | Text | Tree |
// |---|---|
// | `(E&&E)`, `(!@0 E)` | an operation, with the signs of the language |
// | `x@0`, `a@0[E]`, `n@0.state`, `Child@0(y@2).state` | a variable, an element, and what is known of a node |
// | `Lookup@0<go@2 E E>`, `abs@0<E>`, `min@0<E E>` | a lookup with its arguments, and functions |
// | `Integer Lookup l@2(Integer,String s@6,);` | a declaration before the root |
// | `A@0:Sequence{ITEM;ITEM;|ACTION;ACTION;}` | a block; a plain one without a word, and `NodeList` is a word here |
// | `Integer x@2=5@4 a@6[3]=# 1@8 -2@9)`, `Start@1 E`, `Priority@1 5` | items |
// | `L@1:a@3[E]=E`, `x@1=f@3(E,E,)`, `f@1()`, `Update@1 a@2=E b@4=E` | actions |
// | `if(E) B elseif(E) B else B`, `while(E) B`, `for i@4=-2 E E B` | actions with blocks |
//
// A block inside another, as these B, is told by how many items and actions it has: `L@3:Try{0|2}`.
mod action;
mod expression;
mod item;
mod literal;
mod word;

use action::push_action;
pub(crate) use expression::push_expr;
use item::{push_declaration, push_item};
use literal::push_name;
use px_syntax::{Action, Block, Identifier, Item, Surface};
use px_value::NoMemory;
use word::form_word;

/// A whole plan.
pub(crate) fn push_plan(plan: &Surface, out: &mut String) -> Result<(), NoMemory> {
    for declaration in &plan.declarations {
        push_declaration(declaration, out)?;
    }
    push_label(&plan.label, out)?;
    push_block(&plan.root, out)
}

fn push_label(label: &Option<Identifier>, out: &mut String) -> Result<(), NoMemory> {
    match label {
        Some(name) => push_name("", name, ":", out),
        None => Ok(()),
    }
}

fn push_block(block: &Block, out: &mut String) -> Result<(), NoMemory> {
    out.push_str(form_word(block.form))?;
    out.push_str("{")?;
    push_items(&block.items, out)?;
    out.push_str("|")?;
    push_actions(&block.actions, out)?;
    out.push_str("}")
}

fn push_items(items: &[Item], out: &mut String) -> Result<(), NoMemory> {
    for item in items {
        push_item(item, out)?;
        out.push_str(";")?;
    }
    Ok(())
}

fn push_actions(actions: &[Action], out: &mut String) -> Result<(), NoMemory> {
    for action in actions {
        push_label(&action.label, out)?;
        push_action(&action.body, out)?;
        out.push_str(";")?;
    }
    Ok(())
}
