// The texts of what moves do.
ghost use Rattle.std.specs.Prelude.{◌≡◌, ◌++◌, codes, OnOk, OnErr};
ghost use Rattle.std.specs.List.{join_by, zip};
ghost use Rattle.px_value.specs.Text.{bracketed};
ghost use Rattle.px_sem.specs.Text.{effect_text, pair_text};
ghost use Rattle.px_trace.specs.Appending.{Keeps};

use crate::append::push_all;
use crate::values::{push_arguments, push_value};
use itoa::Buffer;
use px_sem::Effect;
use px_value::{Name, NoMemory, Path, Value};

/// Appends an effect, without the blanks before it and the end of its line.
pub(crate) fn push_effect(effect: &Effect, out: &mut Vec<u8>) -> Result<(), NoMemory>
    ensures ok { OnOk result (out.new.items ≡ out.old.items ++ effect_text effect.now) }
    ensures err { OnErr result (Keeps out.old.items out.new.items) }
{
    match effect {
        Effect::NoWrite => push_all(out, &["no write"]),
        Effect::Wrote {
            owner,
            name,
            index,
            value,
        } => {
            push_cell(owner, name, *index, out)?;
            push_all(out, &[" = "])?;
            push_value(value, out)
        }
        Effect::Sent { command, args } => {
            push_all(out, &["command ", command.as_str()])?;
            push_arguments(args.as_slice(), out)
        }
        Effect::Aborted { command } => push_all(out, &["abort ", command.as_str()]),
        Effect::Updated { names, values } => {
            push_all(out, &["update "])?;
            push_pairs(names.as_slice(), values.as_slice(), out)
        }
    }
}

fn push_cell(
    owner: &Path,
    name: &Name,
    index: Option<u32>,
    out: &mut Vec<u8>,
) -> Result<(), NoMemory>
    ensures ok { OnOk result
        (out.new.items ≡ out.old.items ++ (owner.now ++ codes "." ++ name.now ++ bracketed index)) }
    ensures err { OnErr result (Keeps out.old.items out.new.items) }
{
    push_all(out, &[owner.as_str(), ".", name.as_str()])?;
    match index {
        None => Ok(()),
        Some(index) => push_all(out, &["[", Buffer::new().format(index), "]"]),
    }
}

fn push_pairs(names: &[Name], values: &[Value], out: &mut Vec<u8>) -> Result<(), NoMemory>
    ensures ok { OnOk result
        (out.new.items ≡ out.old.items ++ join_by pair_text (codes ", ") (zip names.now values.now)) }
    ensures err { OnErr result (Keeps out.old.items out.new.items) }
{
    let mut pairs = names.iter().zip(values.iter());
    if let Some((name, value)) = pairs.next() {
        push_pair(name, value, out)?;
        for (name, value) in pairs {
            push_all(out, &[", "])?;
            push_pair(name, value, out)?;
        }
    }
    Ok(())
}

fn push_pair(name: &Name, value: &Value, out: &mut Vec<u8>) -> Result<(), NoMemory>
    ensures ok { OnOk result (out.new.items ≡ out.old.items ++ pair_text (name.now, value.now)) }
    ensures err { OnErr result (Keeps out.old.items out.new.items) }
{
    push_all(out, &[name.as_str(), " = "])?;
    push_value(value, out)
}
