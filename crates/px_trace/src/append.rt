// Appending texts, and taking back what was appended.
ghost use Rattle.std.specs.Prelude.{◌≡◌, ◌++◌, take, flat_map, OnOk, OnErr};

use px_value::NoMemory;

/// Appends all of the parts, or nothing.
pub(crate) fn push_all(out: &mut Vec<u8>, parts: &[&str]) -> Result<(), NoMemory>
    ensures ok { OnOk result (out.new.items ≡ out.old.items ++ flat_map (λ part. part.now) parts.now) }
    ensures err { OnErr result (out.new.items ≡ out.old.items) }
{
    let before = out.len();
    for part in parts {
        if let Err(fault) = out.extend_from_slice(part.as_bytes()) {
            out.truncate(before);
            return Err(fault);
        }
    }
    Ok(())
}

/// Cuts the text to its length before the push, where the push has failed.
pub(crate) fn keep_or_truncate(
    pushed: Result<(), NoMemory>,
    before: usize,
    out: &mut Vec<u8>,
) -> Result<(), NoMemory>
    ensures result { result ≡ pushed }
    ensures ok { OnOk pushed (out.new.items ≡ out.old.items) }
    ensures err { OnErr pushed (out.new.items ≡ take before out.old.items) }
{
    if pushed.is_err() {
        out.truncate(before);
    }
    pushed
}
