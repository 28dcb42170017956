// Blocks, line by line.
ghost use Rattle.std.specs.Prelude.{◌≡◌, ◌++◌, map, option_map, OnOk};
ghost use Rattle.std.specs.List.{flat_map};
ghost use Rattle.px_syntax.specs.Block.{action_of, actions_in_turn, block_of, body_of, branch_of, else_ifs_in_turn, else_of, guarded_of, item_data};
ghost use Rattle.px_print.specs.BlockLayout.{action_text, actions_text, block_text, body_text, branch_text, else_ifs_text, else_text, guarded_text, item_text, line, node_list_text};

use crate::action::{
    push_assign, push_call, push_call_into, push_counter, push_label, push_update,
};
use crate::append::push_all;
use crate::expression::push_expression;
use crate::item::push_item;
use crate::word::form_word;
use px_syntax::{Action, Block, BlockForm, Body, Branch, Guarded, Item};
use px_value::NoMemory;

fn push_items(items: &[Item], margin: &[u8], out: &mut Vec<u8>) -> Result<(), NoMemory>
    ensures { OnOk result (out.new.items
        ≡ out.old.items ++ flat_map (λ item. line margin.now (item_text item)) (map item_data items.now)) }
{
    for item in items {
        out.extend_from_slice(margin)?;
        push_item(item, out)?;
        push_all(out, &["\n"])?;
    }
    Ok(())
}

fn push_node_list(form: BlockForm, margin: &[u8], out: &mut Vec<u8>) -> Result<(), NoMemory>
    ensures { OnOk result (out.new.items ≡ out.old.items ++ node_list_text margin.now form) }
{
    if form != BlockForm::NodeList {
        return Ok(());
    }
    out.extend_from_slice(margin)?;
    push_all(out, &["NodeList:\n"])
}

/// Appends a block up to its closing brace, which stands behind the margin. Inside, the margin is deeper by two blanks.
#[cycle(block)]
pub(crate) fn push_block(
    block: &Block,
    margin: &mut Vec<u8>,
    out: &mut Vec<u8>,
) -> Result<(), NoMemory>
    ensures margin { OnOk result (margin.new.items ≡ margin.old.items) }
    ensures text { OnOk result
        (out.new.items ≡ out.old.items ++ block_text margin.old.items (block_of block.now)) }
{
    let outer = margin.len();
    push_all(out, &[form_word(block.form), "{\n"])?;
    margin.extend_from_slice(b"  ")?;
    push_items(&block.items, margin, out)?;
    push_node_list(block.form, margin, out)?;
    push_actions(&block.actions, margin, out)?;
    margin.truncate(outer);
    out.extend_from_slice(margin)?;
    push_all(out, &["}"])
}

#[cycle(block)]
fn push_actions(actions: &[Action], margin: &mut Vec<u8>, out: &mut Vec<u8>) -> Result<(), NoMemory>
    ensures margin { OnOk result (margin.new.items ≡ margin.old.items) }
    ensures text { OnOk result (out.new.items
        ≡ out.old.items ++ actions_text margin.old.items (actions_in_turn (map action_of actions.now))) }
{
    for action in actions {
        out.extend_from_slice(margin)?;
        push_action(action, margin, out)?;
        push_all(out, &["\n"])?;
    }
    Ok(())
}

#[cycle(block)]
fn push_action(action: &Action, margin: &mut Vec<u8>, out: &mut Vec<u8>) -> Result<(), NoMemory>
    ensures margin { OnOk result (margin.new.items ≡ margin.old.items) }
    ensures text { OnOk result
        (out.new.items ≡ out.old.items ++ action_text margin.old.items (action_of action.now)) }
{
    push_label(&action.label, out)?;
    push_body(&action.body, margin, out)
}

#[cycle(block)]
fn push_body(body: &Body, margin: &mut Vec<u8>, out: &mut Vec<u8>) -> Result<(), NoMemory>
    ensures margin { OnOk result (margin.new.items ≡ margin.old.items) }
    ensures text { OnOk result (out.new.items ≡ out.old.items ++ body_text margin.old.items (body_of body.now)) }
{
    match body {
        Body::Block(block) => push_block(block, margin, out),
        Body::Assign { target, value } => push_assign(target, value, out),
        Body::CallInto { target, call } => push_call_into(target, call, out),
        Body::Call(call) => push_call(call, out),
        Body::Update { pairs, .. } => push_update(pairs, out),
        Body::If {
            first,
            others,
            otherwise,
        } => {
            push_all(out, &["if "])?;
            push_guarded(first, margin, out)?;
            push_else_ifs(others, margin, out)?;
            push_else(otherwise, margin, out)?;
            push_all(out, &[" endif"])
        }
        Body::While(guarded) => {
            push_all(out, &["while "])?;
            push_guarded(guarded, margin, out)
        }
        Body::For {
            variable,
            first,
            test,
            step,
            branch,
        } => {
            push_counter(variable, *first, test, step, out)?;
            push_branch(branch, margin, out)
        }
    }
}

/// Appends a test in parentheses, and its branch.
#[cycle(block)]
fn push_guarded(guarded: &Guarded, margin: &mut Vec<u8>, out: &mut Vec<u8>) -> Result<(), NoMemory>
    ensures margin { OnOk result (margin.new.items ≡ margin.old.items) }
    ensures text { OnOk result
        (out.new.items ≡ out.old.items ++ guarded_text margin.old.items (guarded_of guarded.now)) }
{
    push_all(out, &["("])?;
    push_expression(&guarded.test, out)?;
    push_all(out, &[") "])?;
    push_branch(&guarded.branch, margin, out)
}

#[cycle(block)]
fn push_else_ifs(
    others: &[Guarded],
    margin: &mut Vec<u8>,
    out: &mut Vec<u8>,
) -> Result<(), NoMemory>
    ensures margin { OnOk result (margin.new.items ≡ margin.old.items) }
    ensures text { OnOk result (out.new.items
        ≡ out.old.items ++ else_ifs_text margin.old.items (else_ifs_in_turn (map guarded_of others.now))) }
{
    for other in others {
        push_all(out, &[" elseif "])?;
        push_guarded(other, margin, out)?;
    }
    Ok(())
}

#[cycle(block)]
fn push_else(
    otherwise: &Option<Branch>,
    margin: &mut Vec<u8>,
    out: &mut Vec<u8>,
) -> Result<(), NoMemory>
    ensures margin { OnOk result (margin.new.items ≡ margin.old.items) }
    ensures text { OnOk result (out.new.items
        ≡ out.old.items ++ else_text margin.old.items (else_of (option_map branch_of otherwise.now))) }
{
    match otherwise {
        None => Ok(()),
        Some(branch) => {
            push_all(out, &[" else "])?;
            push_branch(branch, margin, out)
        }
    }
}

#[cycle(block)]
fn push_branch(branch: &Branch, margin: &mut Vec<u8>, out: &mut Vec<u8>) -> Result<(), NoMemory>
    ensures margin { OnOk result (margin.new.items ≡ margin.old.items) }
    ensures text { OnOk result
        (out.new.items ≡ out.old.items ++ branch_text margin.old.items (branch_of branch.now)) }
{
    push_label(&branch.label, out)?;
    push_block(&branch.block, margin, out)
}
