// What stands twice in one place.
ghost use Rattle.std.specs.Prelude.{◌≡◌, map, OnOk};
ghost use Rattle.std.specs.Str.{bytes_eq};
ghost use Rattle.px_syntax.specs.BlockFaults.{redeclared, repeated, spots};
ghost use Rattle.px_syntax.specs.declared.fault.FaultKind.TheVariants.{Redeclared};
ghost use Rattle.px_check.specs.Found.{noted};

use crate::found::Found;
use crate::scoped::Scoped;
use px_syntax::{FaultKind, Identifier};
use px_value::NoMemory;
use std::alloc::Global;

/// Notes each of these identifiers that has a name of one before it.
pub fn note_redeclared(
    alloc: Global,
    identifiers: &[&Identifier],
    found: &mut Found,
) -> Result<(), NoMemory>
    ensures { OnOk result (found.new
        ≡ noted found.old (redeclared (map (λ identifier. identifier.now) identifiers.now))) }
{
    note_again(alloc, identifiers, &mut Scoped::new(alloc), found)
}

// Notes each of these identifiers that has a name of one before it, or one of these names.
fn note_again(
    alloc: Global,
    identifiers: &[&Identifier],
    before: &mut Scoped<()>,
    found: &mut Found,
) -> Result<(), NoMemory>
    ensures { OnOk result (found.new ≡ noted found.old (repeated bytes_eq Redeclared (map (λ one. one.0) before.old)
        (spots (map (λ identifier. identifier.now) identifiers.now)))) }
{
    for identifier in identifiers {
        let is_again = before.get(&identifier.name).is_some();
        found.note_where(is_again, FaultKind::Redeclared, identifier.token);
        before.push(alloc, &identifier.name, ())?;
    }
    Ok(())
}
