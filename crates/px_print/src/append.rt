// Appending texts.
ghost use Rattle.std.specs.Prelude.{◌≡◌, ◌++◌, flat_map, OnOk};

use px_value::NoMemory;

/// Appends all of the parts.
pub(crate) fn push_all(out: &mut Vec<u8>, parts: &[&str]) -> Result<(), NoMemory>
    ensures { OnOk result (out.new.items ≡ out.old.items ++ flat_map (λ part. part.now) parts.now) }
{
    for part in parts {
        out.extend_from_slice(part.as_bytes())?;
    }
    Ok(())
}
