// Actions on one line: what is written, called and updated.
ghost use Rattle.std.specs.Prelude.{◌≡◌, [], ◌++◌, codes, map, option_map, OnOk};
ghost use Rattle.std.specs.List.{flat_map, join_by};
ghost use Rattle.px_syntax.specs.Block.{Assign, CallInto, Call as Calls, Update, call_data, pair_data, target_data};
ghost use Rattle.px_syntax.specs.Expr.{term_of};
ghost use Rattle.std.specs.Fmt.{signed_decimal};
ghost use Rattle.px_print.specs.ExprLayout.{term_text};
ghost use Rattle.px_print.specs.Texts.{◌then◌};
ghost use Rattle.px_print.specs.BlockLayout.{body_text, index_text, label_text, pair_text, target_text};

use crate::append::push_all;
use crate::expression::{push_arguments, push_expression};
use crate::leaf::push_name;
use itoa::Buffer;
use px_syntax::{Call, Identifier, Pair, SurfaceExpr, Target};
use px_value::NoMemory;

/// Appends a label with its colon and a blank, where there is one.
pub(crate) fn push_label(label: &Option<Identifier>, out: &mut Vec<u8>) -> Result<(), NoMemory>
    ensures { OnOk result (out.new.items ≡ out.old.items ++ label_text label.now) }
{
    match label {
        None => Ok(()),
        Some(name) => push_all(out, &[name.name.as_str(), ": "]),
    }
}

/// Appends an assignment.
pub(crate) fn push_assign(
    target: &Target,
    value: &SurfaceExpr,
    out: &mut Vec<u8>,
) -> Result<(), NoMemory>
    ensures { OnOk result
        (out.new.items ≡ out.old.items ++ body_text [] (Assign (target_data target.now) (term_of value.now))) }
{
    push_target(target, out)?;
    push_all(out, &[" = "])?;
    push_expression(value, out)?;
    push_all(out, &[";"])
}

/// Appends a command whose answer is written.
pub(crate) fn push_call_into(
    target: &Target,
    call: &Call,
    out: &mut Vec<u8>,
) -> Result<(), NoMemory>
    ensures { OnOk result
        (out.new.items ≡ out.old.items ++ body_text [] (CallInto (target_data target.now) (call_data call.now))) }
{
    push_target(target, out)?;
    push_all(out, &[" = "])?;
    push_call(call, out)
}

/// Appends a command.
pub(crate) fn push_call(call: &Call, out: &mut Vec<u8>) -> Result<(), NoMemory>
    ensures { OnOk result (out.new.items ≡ out.old.items ++ body_text [] (Calls (call_data call.now))) }
{
    push_all(out, &[call.name.name.as_str(), "("])?;
    push_arguments(&call.args, out)?;
    push_all(out, &[");"])
}

/// Appends an update.
pub(crate) fn push_update(pairs: &[Pair], out: &mut Vec<u8>) -> Result<(), NoMemory>
    ensures { OnOk result (out.new.items
        ≡ out.old.items ++ (codes "Update " then join_by pair_text (codes ", ") (map pair_data pairs.now) then codes ";")) }
{
    push_all(out, &["Update "])?;
    push_pairs(pairs, out)?;
    push_all(out, &[";"])
}

fn push_target(target: &Target, out: &mut Vec<u8>) -> Result<(), NoMemory>
    ensures { OnOk result (out.new.items ≡ out.old.items ++ target_text (target_data target.now)) }
{
    push_name(&target.name, out)?;
    push_index(&target.index, out)
}

fn push_index(index: &Option<SurfaceExpr>, out: &mut Vec<u8>) -> Result<(), NoMemory>
    ensures { OnOk result (out.new.items ≡ out.old.items ++ index_text (option_map term_of index.now)) }
{
    match index {
        None => Ok(()),
        Some(index) => {
            push_all(out, &["["])?;
            push_expression(index, out)?;
            push_all(out, &["]"])
        }
    }
}

fn push_pairs(pairs: &[Pair], out: &mut Vec<u8>) -> Result<(), NoMemory>
    ensures { OnOk result (out.new.items
        ≡ out.old.items ++ join_by pair_text (codes ", ") (map pair_data pairs.now)) }
{
    match pairs {
        [] => Ok(()),
        [first, rest @ ..] => {
            push_pair(first, out)?;
            push_further(rest, out)
        }
    }
}

/// Appends pairs, each behind a comma.
fn push_further(pairs: &[Pair], out: &mut Vec<u8>) -> Result<(), NoMemory>
    ensures { OnOk result (out.new.items
        ≡ out.old.items ++ flat_map (λ pair. codes ", " ++ pair_text pair) (map pair_data pairs.now)) }
{
    for pair in pairs {
        push_all(out, &[", "])?;
        push_pair(pair, out)?;
    }
    Ok(())
}

fn push_pair(pair: &Pair, out: &mut Vec<u8>) -> Result<(), NoMemory>
    ensures { OnOk result (out.new.items ≡ out.old.items ++ pair_text (pair_data pair.now)) }
{
    push_all(out, &[pair.name.name.as_str(), " = "])?;
    push_expression(&pair.value, out)
}

/// Appends what stands before the branch of a `for`.
pub(crate) fn push_counter(
    variable: &Identifier,
    first: i32,
    test: &SurfaceExpr,
    step: &SurfaceExpr,
    out: &mut Vec<u8>,
) -> Result<(), NoMemory>
    ensures { OnOk result (out.new.items ≡ out.old.items
        ++ (codes "for (Integer " then variable.now.name then codes " = " then signed_decimal first then codes "; "
        then term_text (term_of test.now) then codes "; " then term_text (term_of step.now) then codes ") ")) }
{
    push_all(out, &["for (Integer ", variable.name.as_str(), " = "])?;
    push_all(out, &[Buffer::new().format(first), "; "])?;
    push_expression(test, out)?;
    push_all(out, &["; "])?;
    push_expression(step, out)?;
    push_all(out, &[") "])
}
